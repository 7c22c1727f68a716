//! Laws: the texts of permissions and specifiers parse back to them.
ghost use Rattle.moo_world_text.specs.Laws.{PropPermsAreReadBack, VerbPermsAreReadBack, ObjectSpecifiersAreReadBack, PrepositionSpecifiersAreReadBack};

/// Proves that the letters of a property's permissions parse back to these permissions.
pub fn prop_perms_are_read_back()
    ensures { PropPermsAreReadBack }
{}

/// Proves that the letters of a verb's permissions parse back to these permissions.
pub fn verb_perms_are_read_back()
    ensures { VerbPermsAreReadBack }
{}

/// Proves that the text of an object specifier parses back to it.
pub fn object_specifiers_are_read_back()
    ensures { ObjectSpecifiersAreReadBack }
{}

/// Proves that the text of a preposition specifier parses back to it.
pub fn preposition_specifiers_are_read_back()
    ensures { PrepositionSpecifiersAreReadBack }
{}
