//! The names of the mnemonics, and the list of all of them.

ghost use Rattle.std.specs.Prelude.{◌≡◌, length};
ghost use Rattle.xt_names.specs.Names.{call_name, mnemonics, name_of, number_name, one_and_number_name, one_and_special_name, one_and_target_name, one_name, one_number_and_target_name, plain_name, three_name, two_and_number_name, two_and_target_name, two_name};

use crate::mnemonic::{
    Mnemonic, Number, One, OneAndNumber, OneAndSpecial, OneAndTarget, OneNumberAndTarget, Plain,
    Three, Two, TwoAndNumber, TwoAndTarget,
};
use xt_isa::boolean::{ChoiceName, EightName, FourName, LogicName, TestName};
use xt_isa::control::{
    BitName, BranchName, CallName, CallxName, ConstName, ConstuName, LoopName, OppositeName,
    ReturnName, ZeroName,
};
use xt_isa::density::{BareName, NarrowName, NarrowZeroName};
use xt_isa::memory::{ByteName, HalfName, WindowName, WordName};
use xt_isa::shift::{
    AmountName, ByteAmountName, NormalizeName, ShiftRightName, SignName, SignedName,
};
use xt_isa::system::{ExceptionReturnName, SpecialName, SyncName, UserName, WaitName};
use xt_isa::three::{
    BitwiseName, DifferenceName, DivideName, MinMaxName, MoveName, Mul16Name, MulHighName, SumName,
};

#[tactic(auto, unfolding(crate::specs::Names::plain_name))]
fn plain_name(mnemonic: Plain) -> &'static str
    ensures { result.now ≡ plain_name mnemonic }
{
    match mnemonic {
        Plain::Return(ReturnName::Ret) => "ret",
        Plain::Return(ReturnName::Retw) => "retw",
        Plain::Sync(SyncName::Ill) => "ill",
        Plain::Sync(SyncName::Isync) => "isync",
        Plain::Sync(SyncName::Rsync) => "rsync",
        Plain::Sync(SyncName::Esync) => "esync",
        Plain::Sync(SyncName::Dsync) => "dsync",
        Plain::Wait(WaitName::Excw) => "excw",
        Plain::Wait(WaitName::Memw) => "memw",
        Plain::Wait(WaitName::Extw) => "extw",
        Plain::Wait(WaitName::Nop) => "nop",
        Plain::ExceptionReturn(ExceptionReturnName::Rfe) => "rfe",
        Plain::ExceptionReturn(ExceptionReturnName::Rfde) => "rfde",
        Plain::ExceptionReturn(ExceptionReturnName::Rfwo) => "rfwo",
        Plain::ExceptionReturn(ExceptionReturnName::Rfwu) => "rfwu",
        Plain::Syscall => "syscall",
        Plain::Bare(BareName::Ret) => "ret.n",
        Plain::Bare(BareName::Retw) => "retw.n",
        Plain::Bare(BareName::Nop) => "nop.n",
        Plain::Bare(BareName::Ill) => "ill.n",
    }
}

#[tactic(auto, unfolding(crate::specs::Names::one_name))]
fn one_name(mnemonic: One) -> &'static str
    ensures { result.now ≡ one_name mnemonic }
{
    match mnemonic {
        One::Amount(AmountName::Ssr) => "ssr",
        One::Amount(AmountName::Ssl) => "ssl",
        One::ByteAmount(ByteAmountName::Ssa8l) => "ssa8l",
        One::ByteAmount(ByteAmountName::Ssa8b) => "ssa8b",
        One::Jx => "jx",
        One::Callx(CallxName::Callx0) => "callx0",
        One::Callx(CallxName::Callx4) => "callx4",
        One::Callx(CallxName::Callx8) => "callx8",
        One::Callx(CallxName::Callx12) => "callx12",
    }
}

#[tactic(auto, unfolding(crate::specs::Names::two_name))]
fn two_name(mnemonic: Two) -> &'static str
    ensures { result.now ≡ two_name mnemonic }
{
    match mnemonic {
        Two::Sign(SignName::Neg) => "neg",
        Two::Sign(SignName::Abs) => "abs",
        Two::ShiftRight(ShiftRightName::Srl) => "srl",
        Two::ShiftRight(ShiftRightName::Sra) => "sra",
        Two::Sll => "sll",
        Two::Normalize(NormalizeName::Nsa) => "nsa",
        Two::Normalize(NormalizeName::Nsau) => "nsau",
        Two::Movsp => "movsp",
        Two::Mov => "mov",
        Two::MovNarrow => "mov.n",
        Two::Four(FourName::Any4) => "any4",
        Two::Four(FourName::All4) => "all4",
        Two::Eight(EightName::Any8) => "any8",
        Two::Eight(EightName::All8) => "all8",
    }
}

#[tactic(auto, unfolding(crate::specs::Names::three_name))]
fn three_name(mnemonic: Three) -> &'static str
    ensures { result.now ≡ three_name mnemonic }
{
    match mnemonic {
        Three::Bitwise(BitwiseName::And) => "and",
        Three::Bitwise(BitwiseName::Or) => "or",
        Three::Bitwise(BitwiseName::Xor) => "xor",
        Three::Sum(SumName::Add) => "add",
        Three::Sum(SumName::Addx2) => "addx2",
        Three::Sum(SumName::Addx4) => "addx4",
        Three::Sum(SumName::Addx8) => "addx8",
        Three::Difference(DifferenceName::Sub) => "sub",
        Three::Difference(DifferenceName::Subx2) => "subx2",
        Three::Difference(DifferenceName::Subx4) => "subx4",
        Three::Difference(DifferenceName::Subx8) => "subx8",
        Three::Src => "src",
        Three::Mul16(Mul16Name::Mul16u) => "mul16u",
        Three::Mul16(Mul16Name::Mul16s) => "mul16s",
        Three::Mull => "mull",
        Three::MulHigh(MulHighName::Muluh) => "muluh",
        Three::MulHigh(MulHighName::Mulsh) => "mulsh",
        Three::Divide(DivideName::Quou) => "quou",
        Three::Divide(DivideName::Quos) => "quos",
        Three::Divide(DivideName::Remu) => "remu",
        Three::Divide(DivideName::Rems) => "rems",
        Three::MinMax(MinMaxName::Min) => "min",
        Three::MinMax(MinMaxName::Max) => "max",
        Three::MinMax(MinMaxName::Minu) => "minu",
        Three::MinMax(MinMaxName::Maxu) => "maxu",
        Three::Move(MoveName::Moveqz) => "moveqz",
        Three::Move(MoveName::Movnez) => "movnez",
        Three::Move(MoveName::Movltz) => "movltz",
        Three::Move(MoveName::Movgez) => "movgez",
        Three::AddNarrow => "add.n",
        Three::Logic(LogicName::Andb) => "andb",
        Three::Logic(LogicName::Andbc) => "andbc",
        Three::Logic(LogicName::Orb) => "orb",
        Three::Logic(LogicName::Orbc) => "orbc",
        Three::Logic(LogicName::Xorb) => "xorb",
        Three::Choice(ChoiceName::Movf) => "movf",
        Three::Choice(ChoiceName::Movt) => "movt",
    }
}

#[tactic(auto, unfolding(crate::specs::Names::number_name))]
fn number_name(mnemonic: Number) -> &'static str
    ensures { result.now ≡ number_name mnemonic }
{
    match mnemonic {
        Number::Ssai => "ssai",
        Number::Rfi => "rfi",
        Number::Waiti => "waiti",
        Number::Rotw => "rotw",
        Number::BreakNarrow => "break.n",
    }
}

#[tactic(auto, unfolding(crate::specs::Names::one_and_number_name))]
fn one_and_number_name(mnemonic: OneAndNumber) -> &'static str
    ensures { result.now ≡ one_and_number_name mnemonic }
{
    match mnemonic {
        OneAndNumber::Movi => "movi",
        OneAndNumber::Rsil => "rsil",
        OneAndNumber::Entry => "entry",
        OneAndNumber::MoviNarrow => "movi.n",
    }
}

#[tactic(auto, unfolding(crate::specs::Names::one_and_special_name))]
fn one_and_special_name(mnemonic: OneAndSpecial) -> &'static str
    ensures { result.now ≡ one_and_special_name mnemonic }
{
    match mnemonic {
        OneAndSpecial::Special(SpecialName::Rsr) => "rsr",
        OneAndSpecial::Special(SpecialName::Wsr) => "wsr",
        OneAndSpecial::Special(SpecialName::Xsr) => "xsr",
        OneAndSpecial::User(UserName::Rur) => "rur",
        OneAndSpecial::User(UserName::Wur) => "wur",
    }
}

#[tactic(auto, unfolding(crate::specs::Names::one_and_target_name))]
fn one_and_target_name(mnemonic: OneAndTarget) -> &'static str
    ensures { result.now ≡ one_and_target_name mnemonic }
{
    match mnemonic {
        OneAndTarget::BranchZero(ZeroName::Beqz) => "beqz",
        OneAndTarget::BranchZero(ZeroName::Bnez) => "bnez",
        OneAndTarget::BranchZero(ZeroName::Bltz) => "bltz",
        OneAndTarget::BranchZero(ZeroName::Bgez) => "bgez",
        OneAndTarget::Loop(LoopName::Loop) => "loop",
        OneAndTarget::Loop(LoopName::Loopnez) => "loopnez",
        OneAndTarget::Loop(LoopName::Loopgtz) => "loopgtz",
        OneAndTarget::BranchZeroNarrow(NarrowZeroName::Beqz) => "beqz.n",
        OneAndTarget::BranchZeroNarrow(NarrowZeroName::Bnez) => "bnez.n",
        OneAndTarget::Test(TestName::Bf) => "bf",
        OneAndTarget::Test(TestName::Bt) => "bt",
    }
}

#[tactic(auto, unfolding(crate::specs::Names::one_number_and_target_name))]
fn one_number_and_target_name(mnemonic: OneNumberAndTarget) -> &'static str
    ensures { result.now ≡ one_number_and_target_name mnemonic }
{
    match mnemonic {
        OneNumberAndTarget::BranchConst(ConstName::Beqi) => "beqi",
        OneNumberAndTarget::BranchConst(ConstName::Bnei) => "bnei",
        OneNumberAndTarget::BranchConst(ConstName::Blti) => "blti",
        OneNumberAndTarget::BranchConst(ConstName::Bgei) => "bgei",
        OneNumberAndTarget::BranchConstu(ConstuName::Bltui) => "bltui",
        OneNumberAndTarget::BranchConstu(ConstuName::Bgeui) => "bgeui",
        OneNumberAndTarget::BranchBit(BitName::Bbci) => "bbci",
        OneNumberAndTarget::BranchBit(BitName::Bbsi) => "bbsi",
    }
}

#[tactic(auto, unfolding(crate::specs::Names::two_and_number_name))]
fn two_and_number_name(mnemonic: TwoAndNumber) -> &'static str
    ensures { result.now ≡ two_and_number_name mnemonic }
{
    match mnemonic {
        TwoAndNumber::Slli => "slli",
        TwoAndNumber::Srai => "srai",
        TwoAndNumber::Srli => "srli",
        TwoAndNumber::Signed(SignedName::Sext) => "sext",
        TwoAndNumber::Signed(SignedName::Clamps) => "clamps",
        TwoAndNumber::Byte(ByteName::L8ui) => "l8ui",
        TwoAndNumber::Byte(ByteName::S8i) => "s8i",
        TwoAndNumber::Half(HalfName::L16ui) => "l16ui",
        TwoAndNumber::Half(HalfName::L16si) => "l16si",
        TwoAndNumber::Half(HalfName::S16i) => "s16i",
        TwoAndNumber::Word(WordName::L32i) => "l32i",
        TwoAndNumber::Word(WordName::S32i) => "s32i",
        TwoAndNumber::Word(WordName::L32ai) => "l32ai",
        TwoAndNumber::Word(WordName::S32ri) => "s32ri",
        TwoAndNumber::S32c1i => "s32c1i",
        TwoAndNumber::Window(WindowName::L32e) => "l32e",
        TwoAndNumber::Window(WindowName::S32e) => "s32e",
        TwoAndNumber::Addi => "addi",
        TwoAndNumber::Addmi => "addmi",
        TwoAndNumber::WordNarrow(NarrowName::L32i) => "l32i.n",
        TwoAndNumber::WordNarrow(NarrowName::S32i) => "s32i.n",
        TwoAndNumber::AddiNarrow => "addi.n",
    }
}

#[tactic(auto, unfolding(crate::specs::Names::two_and_target_name))]
fn two_and_target_name(mnemonic: TwoAndTarget) -> &'static str
    ensures { result.now ≡ two_and_target_name mnemonic }
{
    match mnemonic {
        TwoAndTarget::Branch(BranchName::Bnone) => "bnone",
        TwoAndTarget::Branch(BranchName::Beq) => "beq",
        TwoAndTarget::Branch(BranchName::Blt) => "blt",
        TwoAndTarget::Branch(BranchName::Bltu) => "bltu",
        TwoAndTarget::Branch(BranchName::Ball) => "ball",
        TwoAndTarget::Branch(BranchName::Bbc) => "bbc",
        TwoAndTarget::BranchNot(OppositeName::Bany) => "bany",
        TwoAndTarget::BranchNot(OppositeName::Bne) => "bne",
        TwoAndTarget::BranchNot(OppositeName::Bge) => "bge",
        TwoAndTarget::BranchNot(OppositeName::Bgeu) => "bgeu",
        TwoAndTarget::BranchNot(OppositeName::Bnall) => "bnall",
        TwoAndTarget::BranchNot(OppositeName::Bbs) => "bbs",
    }
}

#[tactic(auto, unfolding(crate::specs::Names::call_name))]
fn call_name(mnemonic: CallName) -> &'static str
    ensures { result.now ≡ call_name mnemonic }
{
    match mnemonic {
        CallName::Call0 => "call0",
        CallName::Call4 => "call4",
        CallName::Call8 => "call8",
        CallName::Call12 => "call12",
    }
}

/// The name of a mnemonic, in lower case.
#[tactic(auto, unfolding(crate::specs::Names::name_of))]
pub fn name_of(mnemonic: Mnemonic) -> &'static str
    ensures { result.now ≡ name_of mnemonic }
{
    match mnemonic {
        Mnemonic::Nothing(mnemonic) => plain_name(mnemonic),
        Mnemonic::One(mnemonic) => one_name(mnemonic),
        Mnemonic::Two(mnemonic) => two_name(mnemonic),
        Mnemonic::Three(mnemonic) => three_name(mnemonic),
        Mnemonic::Number(mnemonic) => number_name(mnemonic),
        Mnemonic::Break => "break",
        Mnemonic::OneAndNumber(mnemonic) => one_and_number_name(mnemonic),
        Mnemonic::TwoAndNumber(mnemonic) => two_and_number_name(mnemonic),
        Mnemonic::Extui => "extui",
        Mnemonic::OneAndSpecial(mnemonic) => one_and_special_name(mnemonic),
        Mnemonic::Jump => "j",
        Mnemonic::Call(mnemonic) => call_name(mnemonic),
        Mnemonic::Literal => "l32r",
        Mnemonic::OneAndTarget(mnemonic) => one_and_target_name(mnemonic),
        Mnemonic::OneNumberAndTarget(mnemonic) => one_number_and_target_name(mnemonic),
        Mnemonic::TwoAndTarget(mnemonic) => two_and_target_name(mnemonic),
    }
}

static MNEMONICS: [Mnemonic; 155] = [
    Mnemonic::Two(Two::Sign(SignName::Abs)),
    Mnemonic::Three(Three::Sum(SumName::Add)),
    Mnemonic::Three(Three::AddNarrow),
    Mnemonic::TwoAndNumber(TwoAndNumber::Addi),
    Mnemonic::TwoAndNumber(TwoAndNumber::AddiNarrow),
    Mnemonic::TwoAndNumber(TwoAndNumber::Addmi),
    Mnemonic::Three(Three::Sum(SumName::Addx2)),
    Mnemonic::Three(Three::Sum(SumName::Addx4)),
    Mnemonic::Three(Three::Sum(SumName::Addx8)),
    Mnemonic::Two(Two::Four(FourName::All4)),
    Mnemonic::Two(Two::Eight(EightName::All8)),
    Mnemonic::Three(Three::Bitwise(BitwiseName::And)),
    Mnemonic::Three(Three::Logic(LogicName::Andb)),
    Mnemonic::Three(Three::Logic(LogicName::Andbc)),
    Mnemonic::Two(Two::Four(FourName::Any4)),
    Mnemonic::Two(Two::Eight(EightName::Any8)),
    Mnemonic::TwoAndTarget(TwoAndTarget::Branch(BranchName::Ball)),
    Mnemonic::TwoAndTarget(TwoAndTarget::BranchNot(OppositeName::Bany)),
    Mnemonic::TwoAndTarget(TwoAndTarget::Branch(BranchName::Bbc)),
    Mnemonic::OneNumberAndTarget(OneNumberAndTarget::BranchBit(BitName::Bbci)),
    Mnemonic::TwoAndTarget(TwoAndTarget::BranchNot(OppositeName::Bbs)),
    Mnemonic::OneNumberAndTarget(OneNumberAndTarget::BranchBit(BitName::Bbsi)),
    Mnemonic::TwoAndTarget(TwoAndTarget::Branch(BranchName::Beq)),
    Mnemonic::OneNumberAndTarget(OneNumberAndTarget::BranchConst(ConstName::Beqi)),
    Mnemonic::OneAndTarget(OneAndTarget::BranchZero(ZeroName::Beqz)),
    Mnemonic::OneAndTarget(OneAndTarget::BranchZeroNarrow(NarrowZeroName::Beqz)),
    Mnemonic::OneAndTarget(OneAndTarget::Test(TestName::Bf)),
    Mnemonic::TwoAndTarget(TwoAndTarget::BranchNot(OppositeName::Bge)),
    Mnemonic::OneNumberAndTarget(OneNumberAndTarget::BranchConst(ConstName::Bgei)),
    Mnemonic::TwoAndTarget(TwoAndTarget::BranchNot(OppositeName::Bgeu)),
    Mnemonic::OneNumberAndTarget(OneNumberAndTarget::BranchConstu(ConstuName::Bgeui)),
    Mnemonic::OneAndTarget(OneAndTarget::BranchZero(ZeroName::Bgez)),
    Mnemonic::TwoAndTarget(TwoAndTarget::Branch(BranchName::Blt)),
    Mnemonic::OneNumberAndTarget(OneNumberAndTarget::BranchConst(ConstName::Blti)),
    Mnemonic::TwoAndTarget(TwoAndTarget::Branch(BranchName::Bltu)),
    Mnemonic::OneNumberAndTarget(OneNumberAndTarget::BranchConstu(ConstuName::Bltui)),
    Mnemonic::OneAndTarget(OneAndTarget::BranchZero(ZeroName::Bltz)),
    Mnemonic::TwoAndTarget(TwoAndTarget::BranchNot(OppositeName::Bnall)),
    Mnemonic::TwoAndTarget(TwoAndTarget::BranchNot(OppositeName::Bne)),
    Mnemonic::OneNumberAndTarget(OneNumberAndTarget::BranchConst(ConstName::Bnei)),
    Mnemonic::OneAndTarget(OneAndTarget::BranchZero(ZeroName::Bnez)),
    Mnemonic::OneAndTarget(OneAndTarget::BranchZeroNarrow(NarrowZeroName::Bnez)),
    Mnemonic::TwoAndTarget(TwoAndTarget::Branch(BranchName::Bnone)),
    Mnemonic::Break,
    Mnemonic::Number(Number::BreakNarrow),
    Mnemonic::OneAndTarget(OneAndTarget::Test(TestName::Bt)),
    Mnemonic::Call(CallName::Call0),
    Mnemonic::Call(CallName::Call12),
    Mnemonic::Call(CallName::Call4),
    Mnemonic::Call(CallName::Call8),
    Mnemonic::One(One::Callx(CallxName::Callx0)),
    Mnemonic::One(One::Callx(CallxName::Callx12)),
    Mnemonic::One(One::Callx(CallxName::Callx4)),
    Mnemonic::One(One::Callx(CallxName::Callx8)),
    Mnemonic::TwoAndNumber(TwoAndNumber::Signed(SignedName::Clamps)),
    Mnemonic::Nothing(Plain::Sync(SyncName::Dsync)),
    Mnemonic::OneAndNumber(OneAndNumber::Entry),
    Mnemonic::Nothing(Plain::Sync(SyncName::Esync)),
    Mnemonic::Nothing(Plain::Wait(WaitName::Excw)),
    Mnemonic::Extui,
    Mnemonic::Nothing(Plain::Wait(WaitName::Extw)),
    Mnemonic::Nothing(Plain::Sync(SyncName::Ill)),
    Mnemonic::Nothing(Plain::Bare(BareName::Ill)),
    Mnemonic::Nothing(Plain::Sync(SyncName::Isync)),
    Mnemonic::Jump,
    Mnemonic::One(One::Jx),
    Mnemonic::TwoAndNumber(TwoAndNumber::Half(HalfName::L16si)),
    Mnemonic::TwoAndNumber(TwoAndNumber::Half(HalfName::L16ui)),
    Mnemonic::TwoAndNumber(TwoAndNumber::Word(WordName::L32ai)),
    Mnemonic::TwoAndNumber(TwoAndNumber::Window(WindowName::L32e)),
    Mnemonic::TwoAndNumber(TwoAndNumber::Word(WordName::L32i)),
    Mnemonic::TwoAndNumber(TwoAndNumber::WordNarrow(NarrowName::L32i)),
    Mnemonic::Literal,
    Mnemonic::TwoAndNumber(TwoAndNumber::Byte(ByteName::L8ui)),
    Mnemonic::OneAndTarget(OneAndTarget::Loop(LoopName::Loop)),
    Mnemonic::OneAndTarget(OneAndTarget::Loop(LoopName::Loopgtz)),
    Mnemonic::OneAndTarget(OneAndTarget::Loop(LoopName::Loopnez)),
    Mnemonic::Three(Three::MinMax(MinMaxName::Max)),
    Mnemonic::Three(Three::MinMax(MinMaxName::Maxu)),
    Mnemonic::Nothing(Plain::Wait(WaitName::Memw)),
    Mnemonic::Three(Three::MinMax(MinMaxName::Min)),
    Mnemonic::Three(Three::MinMax(MinMaxName::Minu)),
    Mnemonic::Two(Two::Mov),
    Mnemonic::Two(Two::MovNarrow),
    Mnemonic::Three(Three::Move(MoveName::Moveqz)),
    Mnemonic::Three(Three::Choice(ChoiceName::Movf)),
    Mnemonic::Three(Three::Move(MoveName::Movgez)),
    Mnemonic::OneAndNumber(OneAndNumber::Movi),
    Mnemonic::OneAndNumber(OneAndNumber::MoviNarrow),
    Mnemonic::Three(Three::Move(MoveName::Movltz)),
    Mnemonic::Three(Three::Move(MoveName::Movnez)),
    Mnemonic::Two(Two::Movsp),
    Mnemonic::Three(Three::Choice(ChoiceName::Movt)),
    Mnemonic::Three(Three::Mul16(Mul16Name::Mul16s)),
    Mnemonic::Three(Three::Mul16(Mul16Name::Mul16u)),
    Mnemonic::Three(Three::Mull),
    Mnemonic::Three(Three::MulHigh(MulHighName::Mulsh)),
    Mnemonic::Three(Three::MulHigh(MulHighName::Muluh)),
    Mnemonic::Two(Two::Sign(SignName::Neg)),
    Mnemonic::Nothing(Plain::Wait(WaitName::Nop)),
    Mnemonic::Nothing(Plain::Bare(BareName::Nop)),
    Mnemonic::Two(Two::Normalize(NormalizeName::Nsa)),
    Mnemonic::Two(Two::Normalize(NormalizeName::Nsau)),
    Mnemonic::Three(Three::Bitwise(BitwiseName::Or)),
    Mnemonic::Three(Three::Logic(LogicName::Orb)),
    Mnemonic::Three(Three::Logic(LogicName::Orbc)),
    Mnemonic::Three(Three::Divide(DivideName::Quos)),
    Mnemonic::Three(Three::Divide(DivideName::Quou)),
    Mnemonic::Three(Three::Divide(DivideName::Rems)),
    Mnemonic::Three(Three::Divide(DivideName::Remu)),
    Mnemonic::Nothing(Plain::Return(ReturnName::Ret)),
    Mnemonic::Nothing(Plain::Bare(BareName::Ret)),
    Mnemonic::Nothing(Plain::Return(ReturnName::Retw)),
    Mnemonic::Nothing(Plain::Bare(BareName::Retw)),
    Mnemonic::Nothing(Plain::ExceptionReturn(ExceptionReturnName::Rfde)),
    Mnemonic::Nothing(Plain::ExceptionReturn(ExceptionReturnName::Rfe)),
    Mnemonic::Number(Number::Rfi),
    Mnemonic::Nothing(Plain::ExceptionReturn(ExceptionReturnName::Rfwo)),
    Mnemonic::Nothing(Plain::ExceptionReturn(ExceptionReturnName::Rfwu)),
    Mnemonic::Number(Number::Rotw),
    Mnemonic::OneAndNumber(OneAndNumber::Rsil),
    Mnemonic::OneAndSpecial(OneAndSpecial::Special(SpecialName::Rsr)),
    Mnemonic::Nothing(Plain::Sync(SyncName::Rsync)),
    Mnemonic::OneAndSpecial(OneAndSpecial::User(UserName::Rur)),
    Mnemonic::TwoAndNumber(TwoAndNumber::Half(HalfName::S16i)),
    Mnemonic::TwoAndNumber(TwoAndNumber::S32c1i),
    Mnemonic::TwoAndNumber(TwoAndNumber::Window(WindowName::S32e)),
    Mnemonic::TwoAndNumber(TwoAndNumber::Word(WordName::S32i)),
    Mnemonic::TwoAndNumber(TwoAndNumber::WordNarrow(NarrowName::S32i)),
    Mnemonic::TwoAndNumber(TwoAndNumber::Word(WordName::S32ri)),
    Mnemonic::TwoAndNumber(TwoAndNumber::Byte(ByteName::S8i)),
    Mnemonic::TwoAndNumber(TwoAndNumber::Signed(SignedName::Sext)),
    Mnemonic::Two(Two::Sll),
    Mnemonic::TwoAndNumber(TwoAndNumber::Slli),
    Mnemonic::Two(Two::ShiftRight(ShiftRightName::Sra)),
    Mnemonic::TwoAndNumber(TwoAndNumber::Srai),
    Mnemonic::Three(Three::Src),
    Mnemonic::Two(Two::ShiftRight(ShiftRightName::Srl)),
    Mnemonic::TwoAndNumber(TwoAndNumber::Srli),
    Mnemonic::One(One::ByteAmount(ByteAmountName::Ssa8b)),
    Mnemonic::One(One::ByteAmount(ByteAmountName::Ssa8l)),
    Mnemonic::Number(Number::Ssai),
    Mnemonic::One(One::Amount(AmountName::Ssl)),
    Mnemonic::One(One::Amount(AmountName::Ssr)),
    Mnemonic::Three(Three::Difference(DifferenceName::Sub)),
    Mnemonic::Three(Three::Difference(DifferenceName::Subx2)),
    Mnemonic::Three(Three::Difference(DifferenceName::Subx4)),
    Mnemonic::Three(Three::Difference(DifferenceName::Subx8)),
    Mnemonic::Nothing(Plain::Syscall),
    Mnemonic::Number(Number::Waiti),
    Mnemonic::OneAndSpecial(OneAndSpecial::Special(SpecialName::Wsr)),
    Mnemonic::OneAndSpecial(OneAndSpecial::User(UserName::Wur)),
    Mnemonic::Three(Three::Bitwise(BitwiseName::Xor)),
    Mnemonic::Three(Three::Logic(LogicName::Xorb)),
    Mnemonic::OneAndSpecial(OneAndSpecial::Special(SpecialName::Xsr)),
];

/// The mnemonics, in the order of their names.
#[tactic(auto, unfolding(crate::specs::Names::mnemonics))]
pub fn mnemonics() -> &'static [Mnemonic]
    ensures all { result.now ≡ mnemonics }
    ensures count { length result.now ≡ 155 }
{
    &MNEMONICS
}
