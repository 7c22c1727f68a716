//! Laws on streams and their pieces.
ghost use Rattle.moo_cli_telnet.specs.Cutting.{TextUnderAnyCutting};
ghost use Rattle.moo_cli_telnet.specs.Streams.{TextOfStreams};

/// What is kept of a stream of telnet is its text.
pub fn text_of_streams()
    ensures { TextOfStreams }
{}

/// However a stream is cut into pieces, the text of its pieces is its text.
pub fn text_under_any_cutting()
    ensures { TextUnderAnyCutting }
{}
