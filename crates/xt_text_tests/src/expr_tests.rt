use std::alloc::Global;
use std::test::Fail;
use xt_lex::{Expr, Label, Labels, Name, Term, TermValue, value};

/// A term of a table: a number or a name, and whether it is taken away.
#[derive(Clone, Copy)]
enum Part {
    Number(bool, u32),
    Name(bool, &'static str),
}

fn name_of(alloc: Global, text: &str) -> Result<Name, Fail> {
    Ok(Name::new(Vec::from_slice(alloc, text.as_bytes())?))
}

fn expr_of(alloc: Global, parts: &[Part]) -> Result<Expr, Fail> {
    let mut terms = Vec::new(alloc);
    for part in parts {
        terms.push(match *part {
            Part::Number(minus, number) => Term {
                minus,
                value: TermValue::Number(number),
            },
            Part::Name(minus, text) => Term {
                minus,
                value: TermValue::Label(name_of(alloc, text)?),
            },
        })?;
    }
    Ok(Expr::new(terms))
}

#[test]
fn the_first_label_of_a_name_is_found(rt: HostRuntime) -> Result<(), Fail> {
    let rows: [(&'static str, i64); 4] = [("a", 16), ("b", 1099511627775), ("a", 32), ("", 8)];
    let mut items = Vec::new(rt.alloc());
    for (text, address) in rows {
        items.push(Label {
            name: name_of(rt.alloc(), text)?,
            address,
        })?;
    }
    let labels = Labels::make(rt.alloc(), items)?;
    assert_eq!(rt; labels.as_slice().len(), 4);
    let wanted: [(&'static str, Option<i64>); 5] = [
        ("a", Some(16)),
        ("b", Some(1099511627775)),
        ("", Some(8)),
        ("c", None),
        ("aa", None),
    ];
    for (text, address) in wanted {
        let name = name_of(rt.alloc(), text)?;
        assert_eq!(rt; labels.first(&name).map(|label| label.address), address);
    }
    Ok(())
}

#[test]
fn values_are_signed_sums(rt: HostRuntime) -> Result<(), Fail> {
    let labels = Labels::make(rt.alloc(), Vec::new(rt.alloc()))?;
    let rows: [(&'static [Part], Result<i64, u8>); 6] = [
        (&[], Ok(0)),
        (
            &[Part::Number(true, 2147483648), Part::Number(true, 1)],
            Ok(-2147483649),
        ),
        (
            &[Part::Number(false, 4294967295), Part::Number(false, 1)],
            Ok(4294967296),
        ),
        (
            &[
                Part::Number(false, 2),
                Part::Number(true, 5),
                Part::Number(false, 3),
            ],
            Ok(0),
        ),
        (&[Part::Name(false, "x")], Err(1)),
        (
            &[
                Part::Number(false, 2),
                Part::Name(true, "x"),
                Part::Number(false, 3),
            ],
            Err(1),
        ),
    ];
    for (parts, wanted) in rows {
        let expr = expr_of(rt.alloc(), parts)?;
        if expr.as_slice().len() <= 1048576 && labels.as_slice().is_empty() {
            assert_eq!(rt; value(&expr, &labels), wanted);
        }
    }
    Ok(())
}
