ghost use Rattle.ssh_fields.specs.Laws.{NumbersReadBack, StringsReadBack, BooleansReadBack, NumbersAreSpelledSo, StringsAreSpelledSo, PatchedNumberStands, PatchKeepsTheRest};

/// What is spelled reads back, whatever follows it.
pub fn spelled_fields_read_back()
    ensures numbers { NumbersReadBack }
    ensures strings { StringsReadBack }
    ensures booleans { BooleansReadBack }
{}

/// What reads is spelled so, and has no other spelling. Only a boolean has: each byte but 0 is
/// true.
pub fn read_fields_are_spelled_so()
    ensures numbers { NumbersAreSpelledSo }
    ensures strings { StringsAreSpelledSo }
{}

/// A number put in place stands there, and all around it stays.
pub fn patched_numbers_stand()
    ensures stands { PatchedNumberStands }
    ensures rest { PatchKeepsTheRest }
{}
