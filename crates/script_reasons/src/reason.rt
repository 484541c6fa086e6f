//! What is told of a script that isn't read.

ghost use Rattle.std.specs.Prelude.{◌≡◌, ◌++◌, codes, OnOk};
ghost use Rattle.std.specs.Io.KnownBytes.{Appends};
ghost use Rattle.script_reasons.specs.declared.reason.Reason.TheVariants.{Byte};
ghost use Rattle.script_reasons.specs.Texts.{after_word, before_word, maker_text, numbers_text, place_text, quoted, reason_text, sentence_of, text_of};

use std::io;
use std::io::Write;

/// Why a script isn't read, and where.
#[derive(Clone, Copy)]
pub struct Explanation<'a> {
    /// The number of the line, from 1; 0 where the script has too many bytes.
    pub line: u32,
    /// The column, from 1, of the word or the byte that is wrong, or where one is missing; 0 where
    /// the script has too many bytes.
    pub column: usize,
    /// What is wrong there.
    pub reason: Reason<'a>,
}

/// What is wrong in a line.
#[derive(Clone, Copy)]
pub enum Reason<'a> {
    /// The form of the text or of the line, whatever its words are.
    Layout(Layout),
    /// This byte, which no line may have.
    Byte(u8),
    /// This word.
    Word(WordFault, &'a [u8]),
    /// A word is missing; the line is written so.
    Missing(&'static str),
    /// This word is one too many; the line is written so.
    Extra(&'a [u8], &'static str),
    /// A number above its range.
    Above {
        what: &'static str,
        value: u64,
        most: u64,
    },
    /// A number below its range.
    Below {
        what: &'static str,
        value: u64,
        least: u64,
    },
    /// A cache for which its pool has too few elements.
    Threshold {
        what: &'static str,
        cache: u64,
        elements: u64,
    },
    /// The worker's name was made by an earlier line.
    Made {
        name: &'a [u8],
        line: u32,
    },
}

/// What is wrong with the form of a text or of a line.
#[derive(Clone, Copy)]
pub enum Layout {
    /// The script has too many bytes.
    ManyBytes,
    /// The line has too many.
    LongLine,
    /// The last line has no end.
    Unended,
    /// No line is the pool line.
    NoPool,
    /// A second line is.
    PoolTwice,
    /// There are too many lines with a command or a step.
    ManyCommands,
    /// A bulk has too many names.
    ManyNames,
    /// A packet has too many segments.
    ManySegments,
}

/// What is wrong with a word.
#[derive(Clone, Copy)]
pub enum WordFault {
    /// It stands in front of the pool line.
    BeforePool,
    /// It is no key of the pool line.
    UnknownKey,
    /// It is a key without a number.
    KeyAlone,
    /// It is a key that stands there before.
    KeyTwice,
    /// It needs a second pool.
    NeedsSecond,
    /// It gives a second pool to a script of steps.
    SecondOfSteps,
    /// It isn't of digits.
    NotDecimal,
    /// It is of too many digits.
    LongNumber,
    /// It spells a number that is too large.
    LargeNumber,
    /// It is a worker's number without a command.
    WorkerAlone,
    /// It is no command.
    UnknownCommand,
    /// It is no step.
    UnknownStep,
    /// It isn't a name.
    NotName,
    /// It is a name that the line makes before.
    NameTwice,
    /// It isn't an element.
    NotElement,
    /// It isn't a segment.
    NotSegment,
}

impl Layout {
    /// The sentence that tells of it.
    fn sentence(self) -> &'static str
        ensures { result.now ≡ sentence_of self }
    {
        match self {
            Layout::ManyBytes => "a script has at most 1048576 bytes",
            Layout::LongLine => "a line has at most 8192 bytes",
            Layout::Unended => "the line has no end: put a line feed behind it",
            Layout::NoPool => "there is no pool line: write 'pool N', with N elements",
            Layout::PoolTwice => "a second pool line: a script has one",
            Layout::ManyCommands => "a script has at most 10000 lines behind the pool line",
            Layout::ManyNames => "a bulk has at most 256 names",
            Layout::ManySegments => "a packet has at most 32 segments",
        }
    }
}

impl WordFault {
    /// What is told in front of the word.
    fn before(self) -> &'static str
        ensures { result.now ≡ before_word self }
    {
        match self {
            WordFault::UnknownKey => "unknown key '",
            WordFault::UnknownCommand => "unknown command '",
            WordFault::UnknownStep => "unknown step '",
            _ => "'",
        }
    }

    /// What is told behind it.
    fn after(self) -> &'static str
        ensures { result.now ≡ after_word self }
    {
        match self {
            WordFault::BeforePool => "' stands before the pool line: write 'pool N' first",
            WordFault::UnknownKey | WordFault::UnknownCommand | WordFault::UnknownStep => "'",
            WordFault::KeyAlone => "' has no number: write one behind it",
            WordFault::KeyTwice => "' stands twice: give it once",
            WordFault::NeedsSecond => "' needs a second pool: give 'second N' on the pool line",
            WordFault::SecondOfSteps => "' is for scripts of commands: steps have one pool",
            WordFault::NotDecimal => "' is not a number: write 1 to 20 decimal digits",
            WordFault::LongNumber => "' is too long: a number has 1 to 20 digits",
            WordFault::LargeNumber => "' is above 18446744073709551615",
            WordFault::WorkerAlone => "' has no command: write one behind it",
            WordFault::NotName => {
                "' is not a name: write 1 to 16 of a to z and 0 to 9, a letter first"
            }
            WordFault::NameTwice => "' is made twice in this line: give each packet its own name",
            WordFault::NotElement => "' is not an element: write a number, or - for the end",
            WordFault::NotSegment => "' is not a segment: write E, or E>B with a base B",
        }
    }
}

impl Explanation<'_> {
    /// Writes the explanation, without a line end. The error is the writer's; part of it may then
    /// be written.
    pub fn write<W: Write>(&self, out: &mut W) -> io::Result<()>
        ensures { OnOk result (Appends (W.contents out.old) (W.contents out.new) (text_of self.now)) }
    {
        write_place(out, self.line, self.column)?;
        self.reason.write(out)
    }
}

impl Reason<'_> {
    /// Writes the reason. The error is the writer's; part of it may then be written.
    pub fn write<W: Write>(&self, out: &mut W) -> io::Result<()>
        ensures { OnOk result (Appends (W.contents out.old) (W.contents out.new)
            (reason_text self.now)) }
    {
        match *self {
            Reason::Layout(layout) => out.write_all(layout.sentence().as_bytes()),
            Reason::Byte(byte) => write_byte(out, byte),
            Reason::Word(fault, word) => write_word(out, fault, word),
            Reason::Missing(usage) => write_missing(out, usage),
            Reason::Extra(word, usage) => write_extra(out, word, usage),
            Reason::Above { what, value, most } => {
                write_numbers(out, what, value, " is above ", most)
            }
            Reason::Below { what, value, least } => {
                write_numbers(out, what, value, " is below ", least)
            }
            Reason::Threshold {
                what,
                cache,
                elements,
            } => write_numbers(out, what, cache, " needs a pool of at least ", elements),
            Reason::Made { name, line } => write_made(out, name, line),
        }
    }
}

/// Writes the line and the column in front of a reason.
#[tactic(auto, unfolding(crate::specs::Texts::place_text))]
fn write_place<W: Write>(out: &mut W, line: u32, column: usize) -> io::Result<()>
    ensures { OnOk result (Appends (W.contents out.old) (W.contents out.new)
        (place_text line column)) }
{
    write!(out, "line {line}, column {column}: ")
}

/// Writes that no line may have this byte.
fn write_byte<W: Write>(out: &mut W, byte: u8) -> io::Result<()>
    ensures { OnOk result (Appends (W.contents out.old) (W.contents out.new)
        (reason_text (Byte byte))) }
{
    write!(
        out,
        "byte {byte} is not of a line: write spaces and printed ASCII characters"
    )
}

/// Writes what is wrong with a word.
fn write_word<W: Write>(out: &mut W, fault: WordFault, word: &[u8]) -> io::Result<()>
    ensures { OnOk result (Appends (W.contents out.old) (W.contents out.new)
        (before_word fault ++ word.now ++ after_word fault)) }
{
    out.write_all(fault.before().as_bytes())?;
    out.write_all(word)?;
    out.write_all(fault.after().as_bytes())
}

/// Writes that a word is missing.
fn write_missing<W: Write>(out: &mut W, usage: &str) -> io::Result<()>
    ensures { OnOk result (Appends (W.contents out.old) (W.contents out.new)
        (codes "a word is missing: write '" ++ usage.now ++ codes "'")) }
{
    write!(out, "a word is missing: write '{usage}'")
}

/// Writes that this word is one too many.
fn write_extra<W: Write>(out: &mut W, word: &[u8], usage: &str) -> io::Result<()>
    ensures { OnOk result (Appends (W.contents out.old) (W.contents out.new)
        (quoted word.now ++ codes " is a word too many: write " ++ quoted usage.now)) }
{
    write_quoted(out, word)?;
    out.write_all(b" is a word too many: write ")?;
    write_quoted(out, usage.as_bytes())
}

/// Writes that an earlier line made this name.
fn write_made<W: Write>(out: &mut W, name: &[u8], line: u32) -> io::Result<()>
    ensures { OnOk result (Appends (W.contents out.old) (W.contents out.new)
        (quoted name.now ++ maker_text line)) }
{
    write_quoted(out, name)?;
    write_maker(out, line)
}

/// Writes which line made a name.
#[tactic(auto, unfolding(crate::specs::Texts::maker_text))]
fn write_maker<W: Write>(out: &mut W, line: u32) -> io::Result<()>
    ensures { OnOk result (Appends (W.contents out.old) (W.contents out.new) (maker_text line)) }
{
    write!(
        out,
        " is made by line {line}: give each packet its own name"
    )
}

/// Writes a word in quotes.
fn write_quoted<W: Write>(out: &mut W, word: &[u8]) -> io::Result<()>
    ensures { OnOk result (Appends (W.contents out.old) (W.contents out.new) (quoted word.now)) }
{
    out.write_all(b"'")?;
    out.write_all(word)?;
    out.write_all(b"'")
}

/// Writes a number, what it is a number of, and another one behind these words.
fn write_numbers<W: Write>(
    out: &mut W,
    what: &str,
    value: u64,
    words: &str,
    other: u64,
) -> io::Result<()>
    ensures { OnOk result (Appends (W.contents out.old) (W.contents out.new)
        (numbers_text what.now value words.now other)) }
{
    write!(out, "{what} {value}{words}{other}")
}
