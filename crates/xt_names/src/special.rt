//! The names of the special and user registers.

ghost use Rattle.std.specs.Prelude.{◌≡◌, true, map, IfSome};
ghost use Rattle.std.specs.List.{list_all};
ghost use Rattle.std.specs.Str.{bytes_eq};
ghost use Rattle.xt_isa.specs.Spelling.{can_exchange};
ghost use Rattle.xt_names.specs.Search.{is_exchanged, shown_special};
ghost use Rattle.xt_names.specs.Specials.{exchanged_names, name_in, number_in, reaches, special_name, special_number};

use crate::forms::Access;
use xt_isa::number;

/// The name of a special register, and its number.
struct SpecialWord {
    /// The name, in lower case.
    name: &'static str,
    /// The number.
    number: u8,
}

macro_rules! specials {
    ($($number:expr, $name:literal;)*) => {
        [$(SpecialWord { name: $name, number: $number }),*]
    };
}

static EXCHANGED: [SpecialWord; 42] = specials! {
    number::LBEG, "lbeg";
    number::LEND, "lend";
    number::LCOUNT, "lcount";
    number::SAR, "sar";
    number::BR, "br";
    number::SCOMPARE1, "scompare1";
    number::WINDOWBASE, "windowbase";
    number::WINDOWSTART, "windowstart";
    number::EPC1, "epc1";
    number::EPC2, "epc2";
    number::EPC3, "epc3";
    number::EPC4, "epc4";
    number::EPC5, "epc5";
    number::EPC6, "epc6";
    number::EPC7, "epc7";
    number::DEPC, "depc";
    number::EPS2, "eps2";
    number::EPS3, "eps3";
    number::EPS4, "eps4";
    number::EPS5, "eps5";
    number::EPS6, "eps6";
    number::EPS7, "eps7";
    number::EXCSAVE1, "excsave1";
    number::EXCSAVE2, "excsave2";
    number::EXCSAVE3, "excsave3";
    number::EXCSAVE4, "excsave4";
    number::EXCSAVE5, "excsave5";
    number::EXCSAVE6, "excsave6";
    number::EXCSAVE7, "excsave7";
    number::INTENABLE, "intenable";
    number::PS, "ps";
    number::VECBASE, "vecbase";
    number::EXCCAUSE, "exccause";
    number::CCOUNT, "ccount";
    number::EXCVADDR, "excvaddr";
    number::CCOMPARE0, "ccompare0";
    number::CCOMPARE1, "ccompare1";
    number::CCOMPARE2, "ccompare2";
    number::MISC0, "misc0";
    number::MISC1, "misc1";
    number::MISC2, "misc2";
    number::MISC3, "misc3";
};

#[tactic(auto, unfolding(crate::specs::Specials::exchanged_names, xt_isa::specs::Spelling::can_exchange))]
fn exchanged() -> &'static [SpecialWord]
    ensures names { map shown_special result.now ≡ exchanged_names }
    ensures reached { list_all is_exchanged result.now ≡ true }
{
    &EXCHANGED
}

/// The number of the special register of this name, where RSR, WSR and XSR all reach it.
fn exchanged_number(name: &[u8]) -> Option<u8>
    ensures number { result ≡ number_in exchanged_names name.now }
    ensures reached { IfSome result (λ n. can_exchange n ≡ true) }
{
    for word in exchanged() {
        if word.name.as_bytes() == name {
            return Some(word.number);
        }
    }
    None
}

/// The name of the special register of this number, where RSR, WSR and XSR all reach it, else the empty text.
fn exchanged_name(number: u8) -> &'static str
    ensures { result.now ≡ name_in exchanged_names number }
{
    for word in exchanged() {
        if word.number == number {
            return word.name;
        }
    }
    ""
}

/// Whether a name is this word.
fn is_named(word: &str, name: &[u8]) -> bool
    ensures { result ≡ bytes_eq word.now name.now }
{
    word.as_bytes() == name
}

/// The number of the special register of this name, where this access reaches it; of `threadptr` 231, the number of the
/// user register.
#[tactic(auto, unfolding(crate::specs::Specials::special_number, crate::specs::Specials::names_of, xt_isa::specs::Spelling::can_read, xt_isa::specs::Spelling::can_write))]
pub fn special_number(access: Access, name: &[u8]) -> Option<u8>
    ensures number { result ≡ special_number access name.now }
    ensures reached { IfSome result (λ n. reaches access n ≡ true) }
{
    match access {
        Access::Read if is_named("interrupt", name) => Some(number::INTERRUPT),
        Access::Read if is_named("prid", name) => Some(number::PRID),
        Access::Write if is_named("intset", name) => Some(number::INTERRUPT),
        Access::Write if is_named("intclear", name) => Some(number::INTCLEAR),
        Access::User if is_named("threadptr", name) => Some(number::THREADPTR),
        Access::User => None,
        Access::Read | Access::Write | Access::Exchange => exchanged_number(name),
    }
}

/// The name of the special register of this number, where this access reaches it, else the empty text. Register 226 is
/// INTERRUPT where it is read and INTSET where it is written.
#[tactic(auto, unfolding(crate::specs::Specials::special_name, crate::specs::Specials::names_of))]
pub fn special_name(access: Access, number: u8) -> &'static str
    ensures { result.now ≡ special_name access number }
{
    match (access, number) {
        (Access::Read, number::INTERRUPT) => "interrupt",
        (Access::Read, number::PRID) => "prid",
        (Access::Write, number::INTERRUPT) => "intset",
        (Access::Write, number::INTCLEAR) => "intclear",
        (Access::User, number::THREADPTR) => "threadptr",
        (Access::User, _) => "",
        _ => exchanged_name(number),
    }
}
