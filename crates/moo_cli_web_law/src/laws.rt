//! Laws of the lines that browsers send.
ghost use Rattle.moo_cli_web_law.specs.BrowserLines.{BrowserLinesUnderAnyCutting};

/// States that the lines of a browser are those of the payload in all its bytes. Neither how its bytes are cut changes
/// them, nor how the server cuts the payload.
pub fn browser_lines_under_any_cutting()
    ensures { BrowserLinesUnderAnyCutting }
{
    moo_cli_web_frames::laws::pieces_have_one_payload();
    moo_session_line::laws::lines_under_any_cutting();
}
