//! What words mean, of each kind of command; the other lines of words are cases of `bench/case`.

use std::alloc::Global;
use std::test::Fail;
use xt_command_line::{Command, Refusal, meaning, script_text};

// What the words of a line mean, which stand with one blank between them.
fn meant(alloc: Global, line: &str) -> Result<Result<Command, Refusal>, Fail> {
    let mut words = Vec::new(alloc);
    for word in line.split(' ') {
        words.push(String::from_str(alloc, word)?)?;
    }
    Ok(meaning(alloc, &words))
}

#[test]
fn words_and_meanings(rt: HostRuntime) -> Result<(), Fail> {
    let alloc = rt.alloc();
    assert!(rt; matches!(meaning(alloc, &[]), Err(Refusal::Usage(1))));
    assert!(rt; matches!(meant(alloc, "fly")?, Err(Refusal::Usage(2))));
    assert!(rt; matches!(meant(alloc, "map --")?, Ok(Command::Map)));
    assert!(rt; matches!(meant(alloc, "gen -- 007")?, Ok(Command::Generate(7))));
    assert!(rt; matches!(meant(alloc, "check")?, Ok(Command::Check(0x4008_0000))));
    Ok(())
}

#[test]
fn words_and_options(rt: HostRuntime) -> Result<(), Fail> {
    let line = "run --turns0=0x3D0900 --turns1 0 --entry1 0x400D0000 --vecbase 0x4009FC00 \
--stack0 1073405952:0x3ffae100";
    let Ok(Command::Run(options)) = meant(rt.alloc(), line)? else {
        return Err(Fail::from("a run"));
    };
    assert_eq!(rt; (options.turns0, options.turns1), (4_000_000, 0));
    assert_eq!(rt;
        (options.entry1, options.vecbase),
        (Some(0x400D_0000), 0x4009_FC00)
    );
    assert_eq!(rt;
        (options.stack0.lo, options.stack0.hi),
        (0x3FFA_E000, 0x3FFA_E100)
    );
    assert_eq!(rt;
        (options.stack1.lo, options.stack1.hi),
        (0x3FFF_8000, 0x4000_0000)
    );
    assert!(rt; !options.trace && !options.events && !options.race && !options.profile);
    Ok(())
}

#[test]
fn words_and_scripts(rt: HostRuntime) -> Result<(), Fail> {
    let words = vec![in rt.alloc();
        String::from_str(rt.alloc(), "replay")?,
        String::from_str(rt.alloc(), "jump")?,
    ]?;
    assert!(rt; script_text(rt.alloc(), &words).ok() == Some("jump"));
    Ok(())
}
