use xt_names::Mnemonic;

/// What a word at the beginning of a statement begins.
#[derive(Clone, Copy)]
pub enum Form {
    /// `.seg`
    Seg,
    /// `.entry`
    Entry,
    /// `.literal_position`
    Position,
    /// `.literal`
    Literal,
    /// `.word`
    Word,
    /// `.short`
    Short,
    /// `.byte`
    Byte,
    /// `.ascii`
    Ascii,
    /// `.asciz`
    Asciz,
    /// `.align`
    Align,
    /// `.space`
    Space,
    /// An instruction of this mnemonic.
    Insn(Mnemonic),
}
