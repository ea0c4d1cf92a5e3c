ghost use Rattle.std.specs.Prelude.{◌≡◌};
ghost use Rattle.dd_session.specs.Messages.{kind_name};

use dd_check::Kind;

/// The name of a kind of fault, as the error output has it.
pub(crate) fn kind_name(kind: Kind) -> &'static [u8]
    ensures { result.now ≡ kind_name kind }
{
    match kind {
        Kind::NotText => b"NotText",
        Kind::TooLong => b"TooLong",
        Kind::BadForm => b"BadForm",
        Kind::UnknownStatement => b"UnknownStatement",
        Kind::BadNumber => b"BadNumber",
        Kind::UnknownPart => b"UnknownPart",
        Kind::UnknownName => b"UnknownName",
        Kind::NameTaken => b"NameTaken",
        Kind::LateMachine => b"LateMachine",
        Kind::NoProc => b"NoProc",
        Kind::BadShape => b"BadShape",
        Kind::UnknownKernel => b"UnknownKernel",
        Kind::ArgCount => b"ArgCount",
        Kind::BadAccess => b"BadAccess",
        Kind::BadRange => b"BadRange",
        Kind::NotSquare => b"NotSquare",
        Kind::ShapeMismatch => b"ShapeMismatch",
        Kind::WrongPlace => b"WrongPlace",
        Kind::TooMany => b"TooMany",
        Kind::BlockTooLarge => b"BlockTooLarge",
        Kind::TaskTooLarge => b"TaskTooLarge",
        Kind::UnendedRegion => b"UnendedRegion",
    }
}
