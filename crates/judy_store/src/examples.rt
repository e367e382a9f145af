//! What the program prints of its ends and faults, and the exit status of each end: the table in docs/use/formats.md,
//! computed by the check. Nothing here is run.

ghost use Rattle.std.specs.Prelude.{◌≡◌, [], ◌∷◌, ◌++◌, codes, string_bytes};
ghost use Rattle.judy_script.specs.declared.fault.RunFault.{RunFault};
ghost use Rattle.judy_script.specs.declared.fault.RunFault.TheVariants as run;
ghost use Rattle.judy_script.specs.Faults.{fault_word};
ghost use Rattle.judy_shelf.specs.declared.fault.DumpFault.{DumpFault};
ghost use Rattle.judy_shelf.specs.declared.fault.DumpFault.TheVariants as dump;
ghost use Rattle.judy_shelf.specs.declared.fault.LoadFault.{LoadFault};
ghost use Rattle.judy_shelf.specs.declared.fault.LoadFault.TheVariants as load;
ghost use Rattle.judy_shelf.specs.Faults.{dump_word, load_word};
ghost use Rattle.judy_store.specs.declared.end.End.TheVariants as end;
ghost use Rattle.judy_store.specs.Ends.{status_of, line_of};

/// The fourteen faults of a load.
pub fn load_faults_have_their_words()
    ensures read { load_word load.Read ≡ codes "read" }
    ensures truncated { load_word load.Truncated ≡ codes "truncated" }
    ensures bad_magic { load_word load.BadMagic ≡ codes "bad-magic" }
    ensures too_many { load_word load.TooMany ≡ codes "too-many" }
    ensures bad_name { load_word load.BadName ≡ codes "bad-name" }
    ensures same_name { load_word load.SameName ≡ codes "same-name" }
    ensures bad_kind { load_word load.BadKind ≡ codes "bad-kind" }
    ensures bad_limit { load_word load.BadLimit ≡ codes "bad-limit" }
    ensures bad_count { load_word load.BadCount ≡ codes "bad-count" }
    ensures bad_key { load_word load.BadKey ≡ codes "bad-key" }
    ensures bad_order { load_word load.BadOrder ≡ codes "bad-order" }
    ensures trailing { load_word load.Trailing ≡ codes "trailing" }
    ensures no_memory { load_word load.NoMemory ≡ codes "no-memory" }
    ensures bad_prefix { load_word load.BadPrefix ≡ codes "bad-prefix" }
{}

/// The faults of a dump and of a run.
pub fn other_faults_have_their_words()
    ensures dump_no_memory { dump_word dump.NoMemory ≡ codes "no-memory" }
    ensures dump_write { dump_word dump.Write ≡ codes "write" }
    ensures run_read { fault_word run.Read ≡ codes "read" }
    ensures run_write { fault_word run.Write ≡ codes "write" }
    ensures run_too_long { fault_word run.TooLong ≡ codes "too-long" }
{}

/// The exit status of each end, whatever its text, its name or its fault is.
pub fn ends_have_their_status(text: &String)
    ensures done { status_of end.Done ≡ 0 }
    ensures help { status_of (end.Help text.now) ≡ 0 }
    ensures version { status_of end.Version ≡ 0 }
    ensures bad_words { status_of (end.BadWords text.now) ≡ 2 }
    ensures no_memory { status_of end.NoMemory ≡ 1 }
    ensures open { status_of (end.Open text.now) ≡ 1 }
    ensures load { (fault : LoadFault) → status_of (end.Load fault) ≡ 1 }
    ensures run { (fault : RunFault) → status_of (end.Run fault) ≡ 1 }
    ensures dump { (fault : DumpFault) → status_of (end.Dump fault) ≡ 1 }
{}

/// What is printed of each end, where one has a text or a name.
pub fn ends_with_a_text_are_told(text: &String)
    ensures help { line_of (end.Help text.now) ≡ string_bytes text.now }
    ensures bad_words { line_of (end.BadWords text.now) ≡ string_bytes text.now }
    ensures open { string_bytes text.now ≡ codes "none" →
        line_of (end.Open text.now) ≡ codes "judystore: open: none" ++ 10 ∷ [] }
{}

/// And where it has none, or a fault.
pub fn ends_are_told()
    ensures done { line_of end.Done ≡ [] }
    ensures version { line_of end.Version ≡ codes "judystore 1.0.0-dev" ++ 10 ∷ [] }
    ensures no_memory { line_of end.NoMemory ≡ codes "judystore: no-memory" ++ 10 ∷ [] }
    ensures load_cut { line_of (end.Load load.Truncated)
        ≡ codes "judystore: load: truncated" ++ 10 ∷ [] }
    ensures load_prefix { line_of (end.Load load.BadPrefix)
        ≡ codes "judystore: load: bad-prefix" ++ 10 ∷ [] }
    ensures load { (fault : LoadFault) → line_of (end.Load fault)
        ≡ codes "judystore: load: " ++ load_word fault ++ 10 ∷ [] }
    ensures run_long { line_of (end.Run run.TooLong)
        ≡ codes "judystore: run: too-long" ++ 10 ∷ [] }
    ensures run { (fault : RunFault) → line_of (end.Run fault)
        ≡ codes "judystore: run: " ++ fault_word fault ++ 10 ∷ [] }
    ensures dump_write { line_of (end.Dump dump.Write)
        ≡ codes "judystore: dump: write" ++ 10 ∷ [] }
    ensures dump { (fault : DumpFault) → line_of (end.Dump fault)
        ≡ codes "judystore: dump: " ++ dump_word fault ++ 10 ∷ [] }
{}
