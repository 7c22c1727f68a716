//! Laws of the listings of every program.
ghost use Rattle.std.specs.Prelude.{◌≡◌, ℕ, List, Bool, true, false};
ghost use Rattle.moo_syntax_ast.specs.Tree.{Block};
ghost use Rattle.moo_syntax_ast.specs.Limits.{IsWithinLimits};
ghost use Rattle.moo_syntax_ast.specs.Listing.{listing};
ghost use Rattle.moo_syntax_grammar.specs.declared.names.Names.{Names};
ghost use Rattle.moo_syntax_grammar.specs.declared.names.Names.TheVariants.{Any};
ghost use Rattle.moo_syntax_grammar.specs.Texts.{IsProgramOf, IsParsed, HasText};
ghost use Rattle.moo_unparse.specs.Indents.{AreIndented};
ghost use Rattle.moo_unparse.specs.Listings.{indented_listing, short_listing};

/// Proves that the full listing of the program of a text is a text of that program, and of no other.
pub fn listing_has_its_program()
    ensures program { (names : Names) (lines : List (List ℕ)) (b : Block) → IsProgramOf names lines b → IsProgramOf names (listing b) b }
    ensures no_other { (names : Names) (lines : List (List ℕ)) (b c : Block) → IsProgramOf names lines b → IsProgramOf names (listing b) c → c ≡ b }
{}

/// Proves that the full listing with indents is a text of that program, and of no other.
pub fn indented_listing_has_its_program()
    ensures program { (names : Names) (lines : List (List ℕ)) (b : Block) → IsProgramOf names lines b → IsProgramOf names (indented_listing b) b }
    ensures no_other { (names : Names) (lines : List (List ℕ)) (b c : Block) → IsProgramOf names lines b → IsProgramOf names (indented_listing b) c → c ≡ b }
{}

/// Proves that the short listing, with or without indents, is a text of that program, and of no other.
pub fn short_listing_has_its_program()
    ensures program { (names : Names) (lines : List (List ℕ)) (indent : Bool) (b : Block) → IsProgramOf names lines b → IsProgramOf names (short_listing indent b) b }
    ensures no_other { (names : Names) (lines : List (List ℕ)) (indent : Bool) (b c : Block) → IsProgramOf names lines b → IsProgramOf names (short_listing indent b) c → c ≡ b }
{}

/// Proves that each listing of a program within the limits is a text of it within the limits. `parse` accepts the
/// listing if its lines fit strings: those of the full listing do.
pub fn listing_is_within_limits()
    ensures full { (names : Names) (lines : List (List ℕ)) (b : Block) → IsProgramOf names lines b → IsWithinLimits b → IsParsed names (listing b) b }
    ensures indented { (names : Names) (lines : List (List ℕ)) (b : Block) → IsProgramOf names lines b → IsWithinLimits b → IsParsed names (indented_listing b) b }
    ensures short { (names : Names) (lines : List (List ℕ)) (indent : Bool) (b : Block) → IsProgramOf names lines b → IsWithinLimits b → IsParsed names (short_listing indent b) b }
{}

/// Proves that the full listing of every program within the limits that some text has is a text of it within the
/// limits.
pub fn programs_have_listings()
    ensures { (b : Block) → HasText b → IsWithinLimits b → IsParsed Any (listing b) b }
{}

/// Proves that a listing with indents has the lines of the one without, each with blanks before it.
pub fn indents_are_blanks()
    ensures full { (b : Block) → AreIndented (listing b) (indented_listing b) }
    ensures short { (b : Block) → AreIndented (short_listing false b) (short_listing true b) }
{}
