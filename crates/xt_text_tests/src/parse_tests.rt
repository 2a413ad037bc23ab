use std::test::Fail;
use xt_lex::lex;
use xt_names::name_of;
use xt_parse::{Operand, Statement, parse};

#[test]
fn a_text_is_its_lines(rt: HostRuntime) -> Result<(), Fail> {
    let text =
        b".seg 0x40080400\n.entry start\n\n.literal_position\nstart: l32r a2, =0x3FF40000\n  movi a3, 65\n";
    let tokens = lex(rt.alloc(), text)?;
    let lines = parse(rt.alloc(), &tokens).ok().ok_or("lines")?;
    assert_eq!(rt; lines.as_slice().len(), 5);
    let line = lines.as_slice().get(3).ok_or("a line")?;
    assert_eq!(rt; line.number, 5);
    assert_eq!(rt; line.column, 8);
    let label = line.label.as_ref().ok_or("a label")?;
    assert_eq!(rt; label.column, 1);
    assert_eq!(rt; label.name.as_slice(), b"start".as_slice());
    let Statement::Insn(mnemonic, operands) = &line.statement else {
        return Err(Fail::from("an instruction"));
    };
    assert_eq!(rt; name_of(*mnemonic), "l32r");
    let pool = operands.as_slice().get(1).ok_or("two operands")?;
    assert!(rt; matches!(pool, Operand::Pool(_)));
    let last = lines.as_slice().get(4).ok_or("a line")?;
    assert_eq!(rt; last.column, 3);
    assert!(rt; last.label.is_none());
    Ok(())
}
