// A piece's kind: from a mark's number, and to its number and name. Functions and no `From`: an impl could only stand beside the types, in crate
// turkish, which holds what the calls mean and no code.
ghost use Rattle.std.specs.Prelude.{◌≡◌};
ghost use Rattle.turkish.specs.Pieces.{kind_name};
ghost use Rattle.turkish.specs.PieceCalls.{kind_number};
ghost use Rattle.kinds.specs.Kinds.{joining_by, kind_at};

use turkish::endings::{Joining, Kind};

// How a piece joined, by whether a y did.
#[tactic(auto, unfolding(crate::specs::Kinds::joining_by))]
fn joining(y: bool) -> Joining
    ensures { result ≡ joining_by y }
{
    if y {
        Joining::WithY
    } else {
        Joining::AfterVowel
    }
}

// The kind of the mark with this number, 12 where it is none of the others; y tells whether a y joined it, where one may.
#[tactic(auto, unfolding(crate::specs::Kinds::kind_at))]
pub fn kind_of(number: u32, y: bool) -> Kind
    ensures { result ≡ kind_at number y }
{
    let j = joining(y);
    match number {
        1 => Kind::YUm(j),
        2 => Kind::SUn,
        3 => Kind::YUz(j),
        4 => Kind::SUnUz,
        5 => Kind::LAr,
        6 => Kind::NUz,
        7 => Kind::DUr,
        8 => Kind::CAsInA,
        9 => Kind::YDU(j),
        10 => Kind::YsA(j),
        11 => Kind::YmUs(j),
        _ => Kind::Yken(j),
    }
}

// A kind's number.
#[tactic(auto, unfolding(turkish::specs::PieceCalls::kind_number))]
pub fn number_of(kind: Kind) -> u8
    ensures { result ≡ kind_number kind }
{
    match kind {
        Kind::YUm(_) => 1,
        Kind::SUn => 2,
        Kind::YUz(_) => 3,
        Kind::SUnUz => 4,
        Kind::LAr => 5,
        Kind::NUz => 6,
        Kind::DUr => 7,
        Kind::CAsInA => 8,
        Kind::YDU(_) => 9,
        Kind::YsA(_) => 10,
        Kind::YmUs(_) => 11,
        Kind::Yken(_) => 12,
    }
}

// A kind's name.
#[tactic(auto, unfolding(crate::proofs::Names::kind_number, crate::proofs::Names::kind_name, crate::proofs::Names::name_from, crate::proofs::Names::kind_names, crate::proofs::Names::text))]
pub fn name_of(kind: Kind) -> &'static [u8]
    ensures { result.now ≡ kind_name (kind_number kind) }
{
    match kind {
        Kind::YUm(_) => b"yUm",
        Kind::SUn => b"sUn",
        Kind::YUz(_) => b"yUz",
        Kind::SUnUz => b"sUnUz",
        Kind::LAr => b"lAr",
        Kind::NUz => b"nUz",
        Kind::DUr => b"DUr",
        Kind::CAsInA => b"cAsInA",
        Kind::YDU(_) => b"yDU",
        Kind::YsA(_) => b"ysA",
        Kind::YmUs(_) => b"ymUs_",
        Kind::Yken(_) => b"yken",
    }
}
