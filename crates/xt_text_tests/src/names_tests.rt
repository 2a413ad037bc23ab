//! Words that are mnemonics, and words that are none.

use std::test::Fail;
use xt_names::{mnemonic_of, name_of};

#[test]
fn mnemonics_are_found(rt: HostRuntime) -> Result<(), Fail> {
    for name in ["abs", "xsr", "loopgtz", "callx12", "l32i.n", "j", "mov"] {
        let mnemonic = mnemonic_of(name.as_bytes()).ok_or("a mnemonic")?;
        assert_eq!(rt; name_of(mnemonic), name);
    }
    for name in [
        "", "foo", "MOVI", "movi ", "l32i.", "break.n2", "nop.n\0", "zz",
    ] {
        assert!(rt; mnemonic_of(name.as_bytes()).is_none());
    }
    Ok(())
}
