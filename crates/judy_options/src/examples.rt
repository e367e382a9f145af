//! What clap makes of words that ask for the version, computed by the check. Nothing here is run.

ghost use Rattle.std.specs.Prelude.{◌≡◌, [], ◌∷◌, codes, Some};
ghost use Rattle.clap.specs.declared.error.kind.ErrorKind.TheVariants as kind;
ghost use Rattle.judy_options.specs.CommandLines.{refusals, value_of};

/// Words that ask for the version, alone or beside others.
pub fn version_is_asked_for()
    ensures alone { refusals (codes "judystore" ∷ codes "--version" ∷ [])
        ≡ kind.DisplayVersion ∷ [] }
    ensures short { refusals (codes "judystore" ∷ codes "-V" ∷ [])
        ≡ kind.DisplayVersion ∷ [] }
    ensures behind_files { refusals (codes "judystore" ∷ codes "--load" ∷ codes "none"
        ∷ codes "--dump=kept" ∷ codes "script" ∷ codes "--version" ∷ [])
        ≡ kind.DisplayVersion ∷ [] }
    ensures before_help { refusals (codes "judystore" ∷ codes "--version" ∷ codes "--help" ∷ [])
        ≡ kind.DisplayVersion ∷ [] }
    ensures before_a_fault { refusals (codes "judystore" ∷ codes "--version" ∷ codes "--nope" ∷ [])
        ≡ kind.DisplayVersion ∷ [] }
{}

/// Words that clap answers otherwise, since the first that is refused decides.
pub fn version_is_not_asked_for()
    ensures behind_help { refusals (codes "judystore" ∷ codes "--help" ∷ codes "--version" ∷ [])
        ≡ kind.DisplayHelp ∷ [] }
    ensures behind_a_fault { refusals (codes "judystore" ∷ codes "--nope" ∷ codes "--version" ∷ [])
        ≡ kind.UnknownArgument ∷ [] }
    ensures with_a_value { refusals (codes "judystore" ∷ codes "--version=1" ∷ [])
        ≡ kind.TooManyValues ∷ [] }
    ensures in_a_value { refusals (codes "judystore" ∷ codes "--load" ∷ codes "--version" ∷ [])
        ≡ kind.InvalidValue ∷ [] }
    ensures as_a_script { value_of (codes "script")
        (codes "judystore" ∷ codes "--" ∷ codes "--version" ∷ []) ≡ Some (codes "--version") }
{}
