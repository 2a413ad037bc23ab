//! The latest entries of both cores that touch a byte.
ghost use Rattle.std.specs.Prelude.{◌≡◌};
ghost use Rattle.xt_race.specs.Tables.{latest_of, no_mark, mark_after_note, noted_in, rival_of};

/// The latest entries of a core that touch a byte: of each one more than its place in the history, 0 where there is none.
#[derive(Clone, Copy)]
pub struct Latest {
    /// Any entry.
    pub any: u32,
    /// One that does not synchronise.
    pub plain: u32,
    /// One that writes.
    pub write: u32,
    /// One that writes and does not synchronise.
    pub plain_write: u32,
}

/// The latest entries of both cores that touch a byte.
#[derive(Clone, Copy)]
pub struct Mark {
    /// Of core 0.
    pub zero: Latest,
    /// Of core 1.
    pub one: Latest,
}

/// What an entry leaves with the bytes that it touches.
#[derive(Clone, Copy)]
pub struct Note {
    /// Its core.
    pub core: u8,
    /// Whether it writes.
    pub writes: bool,
    /// Whether it does not synchronise.
    pub plain: bool,
    /// One more than its place.
    pub upto: u32,
}

/// That of a byte that no entry touches.
pub fn no_mark() -> Mark
    ensures { result ≡ no_mark }
{
    let none = Latest {
        any: 0,
        plain: 0,
        write: 0,
        plain_write: 0,
    };
    Mark {
        zero: none,
        one: none,
    }
}

// The latest entries of a core past one more.
fn noted_in(note: Note, latest: Latest) -> Latest
    ensures { result ≡ noted_in note latest }
{
    Latest {
        any: note.upto,
        plain: if note.plain { note.upto } else { latest.plain },
        write: if note.writes { note.upto } else { latest.write },
        plain_write: if note.plain && note.writes {
            note.upto
        } else {
            latest.plain_write
        },
    }
}

/// The latest entries of both cores past one more.
pub fn mark_after_note(note: Note, mark: Mark) -> Mark
    ensures { result ≡ mark_after_note note mark }
{
    if note.core == 0 {
        Mark {
            zero: noted_in(note, mark.zero),
            one: mark.one,
        }
    } else {
        Mark {
            zero: mark.zero,
            one: noted_in(note, mark.one),
        }
    }
}

// The latest entry of those that conflict with one that writes or not, and synchronises or not.
fn latest_of(writes: bool, plain: bool, latest: Latest) -> u32
    ensures { result ≡ latest_of writes plain latest }
{
    match (writes, plain) {
        (true, true) => latest.any,
        (true, false) => latest.plain,
        (false, true) => latest.write,
        (false, false) => latest.plain_write,
    }
}

/// The latest entry of the other core that conflicts with one like this.
pub fn rival_of(note: Note, mark: Mark) -> u32
    ensures { result ≡ rival_of note mark }
{
    let latest = if note.core == 0 { mark.one } else { mark.zero };
    latest_of(note.writes, note.plain, latest)
}
