//! The words of scripts, each spelled out: the commands, the kinds and the refusals.

ghost use Rattle.std.specs.Prelude.{◌≡◌, [], ◌∷◌, ◌++◌, codes, Some, None, Ok, Err};
ghost use Rattle.judy_model.specs.Arrays.{judy1, judyl, judysl, judyhs, empty_array};
ghost use Rattle.judy_model.specs.CommandWords.{make, list, drop, free, set, unset, test, get, del, neighbour, empty, first, next, last, prev, by_count, on_key, on_pair, ins, put, count, command_named};
ghost use Rattle.judy_model.specs.Kinds.{kind_named};
ghost use Rattle.judy_model.specs.Replies.{line_too_long, unknown_command, argument_count, bad_name, no_such_array, wrong_kind, bad_word, bad_key, bad_limit, exists, too_many_arrays, full, no_memory, listed, output_of, refusal_word};
ghost use Rattle.judy_model.specs.Examples.{two_arrays};

/// A command's word is spelled in lower case and whole.
pub fn commands_have_their_words()
    ensures make { command_named (codes "make") ≡ Some make }
    ensures list { command_named (codes "list") ≡ Some list }
    ensures drop { command_named (codes "drop") ≡ Some drop }
    ensures free { command_named (codes "free") ≡ Some free }
    ensures set { command_named (codes "set") ≡ Some (on_key set) }
    ensures unset { command_named (codes "unset") ≡ Some (on_key unset) }
    ensures test { command_named (codes "test") ≡ Some (on_key test) }
    ensures get { command_named (codes "get") ≡ Some (on_key get) }
    ensures del { command_named (codes "del") ≡ Some (on_key del) }
    ensures by_count { command_named (codes "bycount") ≡ Some (on_key by_count) }
    ensures ins { command_named (codes "ins") ≡ Some (on_pair ins) }
    ensures put { command_named (codes "put") ≡ Some (on_pair put) }
    ensures count { command_named (codes "count") ≡ Some (on_pair count) }
    ensures upper { command_named (codes "SET") ≡ None }
    ensures longer { command_named (codes "sets") ≡ None }
    ensures shorter { command_named (codes "se") ≡ None }
    ensures none { command_named [] ≡ None }
{}

/// So are those of the neighbours, among the keys and among the words that are no keys.
pub fn neighbours_have_their_words()
    ensures first { command_named (codes "first") ≡ Some (on_key (neighbour first)) }
    ensures next { command_named (codes "next") ≡ Some (on_key (neighbour next)) }
    ensures last { command_named (codes "last") ≡ Some (on_key (neighbour last)) }
    ensures prev { command_named (codes "prev") ≡ Some (on_key (neighbour prev)) }
    ensures first_empty { command_named (codes "fe") ≡ Some (on_key (empty first)) }
    ensures next_empty { command_named (codes "ne") ≡ Some (on_key (empty next)) }
    ensures last_empty { command_named (codes "le") ≡ Some (on_key (empty last)) }
    ensures prev_empty { command_named (codes "pe") ≡ Some (on_key (empty prev)) }
{}

/// Each kind is named by its word.
pub fn kinds_are_named()
    ensures set { kind_named (codes "judy1") ≡ Some (λ limit. judy1 (empty_array limit)) }
    ensures words { kind_named (codes "judyl") ≡ Some (λ limit. judyl (empty_array limit)) }
    ensures strings { kind_named (codes "judysl") ≡ Some (λ limit. judysl (empty_array limit)) }
    ensures bytes { kind_named (codes "judyhs") ≡ Some (λ limit. judyhs (empty_array limit)) }
    ensures upper { kind_named (codes "JudyL") ≡ None }
    ensures none { kind_named [] ≡ None }
{}

/// Each refusal has its word, and is put out behind `error` and a space.
pub fn refusals_have_their_words()
    ensures line_too_long { refusal_word line_too_long ≡ codes "line-too-long" }
    ensures unknown_command { refusal_word unknown_command ≡ codes "unknown-command" }
    ensures argument_count { refusal_word argument_count ≡ codes "argument-count" }
    ensures bad_name { refusal_word bad_name ≡ codes "bad-name" }
    ensures no_such_array { refusal_word no_such_array ≡ codes "no-such-array" }
    ensures wrong_kind { refusal_word wrong_kind ≡ codes "wrong-kind" }
    ensures bad_word { refusal_word bad_word ≡ codes "bad-word" }
    ensures bad_key { refusal_word bad_key ≡ codes "bad-key" }
    ensures bad_limit { refusal_word bad_limit ≡ codes "bad-limit" }
    ensures exists { refusal_word exists ≡ codes "exists" }
    ensures too_many_arrays { refusal_word too_many_arrays ≡ codes "too-many-arrays" }
    ensures full { refusal_word full ≡ codes "full" }
    ensures no_memory { refusal_word no_memory ≡ codes "no-memory" }
    ensures line { output_of (Err no_such_array) ≡ codes "error no-such-array" ++ 10 ∷ [] }
{}

/// A list has a space, a name, a kind's word and the number of keys for each array, in their order.
pub fn arrays_are_put_out_with_their_numbers_of_keys()
    ensures { output_of (Ok (listed two_arrays)) ≡ codes "names a:judyl:0 s:judy1:0" ++ 10 ∷ [] }
{}
