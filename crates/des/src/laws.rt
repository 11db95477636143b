//! A law of the key schedule, as the contract of a function that does nothing.

ghost use Rattle.des.specs.Laws.{NullKeyHasNullRoundKeys};

/// All round keys of the key of zeros are zeros.
pub fn null_key_has_null_round_keys()
    ensures { NullKeyHasNullRoundKeys }
{}
