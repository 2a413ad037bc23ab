ghost use Rattle.std.specs.Prelude.{◌≡◌, map};
ghost use Rattle.xt_parse.specs.Words.{directive_of, directive_words, form_of, is_label_word, register_of, register_words, word_and_form, shown_register, starts_as_directive};

use crate::form::Form;
use xt_names::mnemonic_of;

/// A directive, and what it begins.
pub struct DirectiveWord {
    /// The word.
    pub name: &'static str,
    /// What it begins.
    pub form: Form,
}

macro_rules! directives {
    ($($name:literal => $form:expr;)*) => {
        [$(DirectiveWord { name: $name, form: $form }),*]
    };
}

static DIRECTIVES: [DirectiveWord; 11] = directives! {
    ".seg" => Form::Seg;
    ".entry" => Form::Entry;
    ".literal_position" => Form::Position;
    ".literal" => Form::Literal;
    ".word" => Form::Word;
    ".short" => Form::Short;
    ".byte" => Form::Byte;
    ".ascii" => Form::Ascii;
    ".asciz" => Form::Asciz;
    ".align" => Form::Align;
    ".space" => Form::Space;
};

#[tactic(auto, unfolding(crate::specs::Words::directive_words))]
fn directives() -> &'static [DirectiveWord]
    ensures { map word_and_form result.now ≡ directive_words }
{
    &DIRECTIVES
}

/// What a directive begins.
fn directive_of(name: &[u8]) -> Option<Form>
    ensures { result ≡ directive_of name.now }
{
    for word in directives() {
        if word.name.as_bytes() == name {
            return Some(word.form);
        }
    }
    None
}

/// What a word begins, where it begins a statement.
#[tactic(auto, unfolding(crate::specs::Words::form_of))]
pub fn form_of_word(name: &[u8]) -> Option<Form>
    ensures { result ≡ form_of name.now }
{
    match mnemonic_of(name) {
        Some(mnemonic) => Some(Form::Insn(mnemonic)),
        None => directive_of(name),
    }
}

/// A register by its kind and its number, 0 to 15.
#[derive(Clone, Copy)]
pub enum Register {
    /// An address register.
    Address(u8),
    /// A Boolean register.
    Boolean(u8),
}

/// A name of a register, and the register.
pub struct RegisterWord {
    /// The word.
    pub name: &'static str,
    /// The register.
    pub register: Register,
}

macro_rules! registers {
    ($($name:literal => $register:expr;)*) => {
        [$(RegisterWord { name: $name, register: $register }),*]
    };
}

static REGISTERS: [RegisterWord; 33] = registers! {
    "a0" => Register::Address(0);
    "a1" => Register::Address(1);
    "a2" => Register::Address(2);
    "a3" => Register::Address(3);
    "a4" => Register::Address(4);
    "a5" => Register::Address(5);
    "a6" => Register::Address(6);
    "a7" => Register::Address(7);
    "a8" => Register::Address(8);
    "a9" => Register::Address(9);
    "a10" => Register::Address(10);
    "a11" => Register::Address(11);
    "a12" => Register::Address(12);
    "a13" => Register::Address(13);
    "a14" => Register::Address(14);
    "a15" => Register::Address(15);
    "sp" => Register::Address(1);
    "b0" => Register::Boolean(0);
    "b1" => Register::Boolean(1);
    "b2" => Register::Boolean(2);
    "b3" => Register::Boolean(3);
    "b4" => Register::Boolean(4);
    "b5" => Register::Boolean(5);
    "b6" => Register::Boolean(6);
    "b7" => Register::Boolean(7);
    "b8" => Register::Boolean(8);
    "b9" => Register::Boolean(9);
    "b10" => Register::Boolean(10);
    "b11" => Register::Boolean(11);
    "b12" => Register::Boolean(12);
    "b13" => Register::Boolean(13);
    "b14" => Register::Boolean(14);
    "b15" => Register::Boolean(15);
};

#[tactic(auto, unfolding(crate::specs::Words::register_words))]
fn registers() -> &'static [RegisterWord]
    ensures { map shown_register result.now ≡ register_words }
{
    &REGISTERS
}

/// The register, where the word is the name of one.
pub fn register_of_word(name: &[u8]) -> Option<Register>
    ensures { result ≡ register_of name.now }
{
    for word in registers() {
        if word.name.as_bytes() == name {
            return Some(word.register);
        }
    }
    None
}

// Whether a word begins with a dot, which no `L` follows.
fn starts_as_directive(name: &[u8]) -> bool
    ensures { result ≡ starts_as_directive name.now }
{
    match name {
        [b'.', b'L', ..] => false,
        [b'.', ..] => true,
        _ => false,
    }
}

/// Whether a word may be a label: it is not the name of a register, and begins with a dot only as `.L`.
pub fn may_be_label(name: &[u8]) -> bool
    ensures { result ≡ is_label_word name.now }
{
    !starts_as_directive(name) && register_of_word(name).is_none()
}
