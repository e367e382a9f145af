//! What a shelf and its arrays refuse, as a script's refusals.

use crate::reply::Refusal;
use judy_hs::HsError;
use judy_shelf::MakeError;
use judy_sl::SlError;
use judy_word::InsertError;

impl From<MakeError> for Refusal {
    ghost use Rattle.std.specs.Prelude.{◌≡◌};
    ghost use Rattle.judy_command.specs.Refusals.{refusal_of_make};

    ghost from_gives = { λ error refusal. refusal ≡ refusal_of_make error };

    fn from(error: MakeError) -> Refusal {
        match error {
            MakeError::BadLimit => Refusal::BadLimit,
            MakeError::Exists => Refusal::Exists,
            MakeError::TooMany => Refusal::TooManyArrays,
            MakeError::NoMemory => Refusal::NoMemory,
        }
    }
}

impl From<InsertError> for Refusal {
    ghost use Rattle.std.specs.Prelude.{◌≡◌};
    ghost use Rattle.judy_command.specs.Refusals.{refusal_of_insert};

    ghost from_gives = { λ error refusal. refusal ≡ refusal_of_insert error };

    fn from(error: InsertError) -> Refusal {
        match error {
            InsertError::Full => Refusal::Full,
            InsertError::NoMemory => Refusal::NoMemory,
        }
    }
}

impl From<SlError> for Refusal {
    ghost use Rattle.std.specs.Prelude.{◌≡◌};
    ghost use Rattle.judy_command.specs.Refusals.{refusal_of_strings};

    ghost from_gives = { λ error refusal. refusal ≡ refusal_of_strings error };

    fn from(error: SlError) -> Refusal {
        match error {
            SlError::BadKey => Refusal::BadKey,
            SlError::Full => Refusal::Full,
            SlError::NoMemory => Refusal::NoMemory,
        }
    }
}

impl From<HsError> for Refusal {
    ghost use Rattle.std.specs.Prelude.{◌≡◌};
    ghost use Rattle.judy_command.specs.Refusals.{refusal_of_bytes};

    ghost from_gives = { λ error refusal. refusal ≡ refusal_of_bytes error };

    fn from(error: HsError) -> Refusal {
        match error {
            HsError::TooLong => Refusal::BadKey,
            HsError::Full => Refusal::Full,
            HsError::NoMemory => Refusal::NoMemory,
        }
    }
}
