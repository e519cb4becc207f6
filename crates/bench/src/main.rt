// The bench program: reads one file from standard input and prints the lines of its run, or the one line of its
// refusal. Its status tells how it ended. It ends at the first read or write that fails.
//
// What is proved of `bench`, over any reader and any writer: it hands on the text of the bytes that the reader has,
// where a write fails a beginning of that text, and where a read fails nothing; that it tells an accepted file or a
// refused one is as the file's check decides. `status` gives each end its number.
#![tactic(auto)]

ghost use Rattle.std.specs.Prelude.{◌≤◌, ◌<◌, ◌≡◌, ◌≢◌, length, take, Err, IfOk, OnOk, OnErr, IfSome};
ghost use Rattle.std.specs.Io.KnownBytes.{Appends, Consumes, IsAtEnd};
ghost use Rattle.verdict.specs.Verdict.{number_of, verdict};
ghost use Rattle.text.specs.Text.{refusal_line};
ghost use Rattle.file.specs.File.{file_in};
ghost use Rattle.run.specs.Bench.{words_text, bench_text};
ghost use Rattle.run.specs.Page.{least_room};
ghost use Rattle.bench.specs.Begun.{Begun};
ghost use Rattle.bench.specs.declared.TheConstants.{MOST_WORDS, CHUNK, TEXT};
ghost use Rattle.bench.specs.declared.Lost.TheVariants.{Input};
ghost use Rattle.bench.specs.End.{end_of, end_of_bytes, status_of};
ghost use Rattle.bench.specs.Known.{ReadsFront, AppendsFront, Writes, text_on};

use run::VISIT_ROOM;
use std::io::{Error, ErrorKind, Read, Write};
use std::process::ExitCode;
use text::LONGEST_LINE;
use verdict::Refusal;
use words::Converted;

// The largest file that is accepted has 12,697 words; one more is enough to know that words are left over. These are
// whole chunks.
const MOST_WORDS: usize = 13312;

// What the words and the state hold before they are put there. An array of zeros would be cleared by a call.
const UNUSED: u16 = 1;

// The words of the largest table, and one for each block of the largest network.
const MOST_STATE: usize = 10895;

// The bytes that are read and made words at a time.
const CHUNK: usize = 2048;

// The bytes of text of a short run.
const SHORT_TEXT: usize = 27648;

// The visits of a run that is short.
const SHORT: usize = 2000;

// The bytes of text that are written at a time, where a run is long.
const TEXT: usize = 97280;

// How a file's run ended, whose lines are all written.
#[derive(Clone, Copy, Debug, PartialEq, Eq)]
enum End {
    // The file is accepted.
    Written,
    // The file is refused; its line is that of the refusal.
    Refused,
}

// Why not all lines are written.
#[derive(Clone, Copy, Debug, PartialEq, Eq)]
enum Lost {
    // The input could not be read to its end.
    Input,
    // The output could not be written, or only its beginning.
    Output,
    // Whoever read the output went away.
    Reader,
}

// What is lost where a write fails.
impl From<Error> for Lost {
    ghost from_gives = { λ _ lost. lost ≢ Input };

    fn from(error: Error) -> Lost {
        match error.kind() {
            ErrorKind::BrokenPipe => Lost::Reader,
            _ => Lost::Output,
        }
    }
}

// Reads to the bytes until they are full or the input ends: where it ends first, `read_exact` fails and tells no count.
fn read_front<R: Read>(input: &mut R, bytes: &mut [u8]) -> Result<usize, Lost>
    ensures count { IfOk result (λ n. n ≤ length bytes.new) }
    ensures took { IfOk result (λ n. Consumes (R.remaining input.old) (R.remaining input.new) (take n bytes.new)) }
    ensures end { IfOk result (λ n. n < length bytes.new → IsAtEnd (R.remaining input.new)) }
{
    let mut count = 0;
    while count < bytes.len() {
        match input.read(&mut bytes[count..]).map_err(|_| Lost::Input)? {
            0 => return Ok(count),
            more => count += more,
        }
    }
    Ok(count)
}

// Reads the input to the front of the words, a chunk at a time, until they are full or the input ends.
fn read_words<R: Read>(
    input: &mut R,
    bytes: &mut [u8],
    words: &mut [u16],
) -> Result<Converted, Lost>
    requires { (length bytes.old ≡ CHUNK) × (length words.old ≡ MOST_WORDS) }
    ensures count { IfOk result (λ given. given.count ≤ length words.new) }
    ensures front { IfOk result (λ given. ReadsFront (R.remaining input.old) (R.remaining input.new)
        words.old given.count given.odd words.new) }
{
    let mut count = 0;
    while count < words.len() {
        let got = read_front(input, bytes)?;
        let converted = words::to_words(&bytes[..got], &mut words[count..]).unwrap();
        count += converted.count;
        if got < bytes.len() {
            return Ok(Converted {
                count,
                odd: converted.odd,
            });
        }
    }
    Ok(Converted { count, odd: false })
}

// Writes all of the bytes; where it fails, a beginning of them is written: of `write_all` nothing is known there.
fn write_whole<W: Write>(output: &mut W, bytes: &[u8]) -> Result<(), Lost>
    ensures text { Writes (W.contents output.old) (W.contents output.new) bytes.now result }
{
    let mut at = 0;
    while at < bytes.len() {
        match output.write(&bytes[at..])? {
            0 => return Err(Lost::Output),
            more => at += more,
        }
    }
    Ok(())
}

// The line of a refusal.
fn refuse<W: Write>(output: &mut W, refusal: Refusal) -> Result<(), Lost>
    requires { refusal.place ≤ 65535 }
    ensures text { Writes (W.contents output.old) (W.contents output.new)
        (refusal_line (verdict (number_of refusal.fault) refusal.place)) result }
{
    let mut line = [0u8; LONGEST_LINE];
    let bytes = ends::put_refusal(&mut line, refusal.fault.number(), refusal.place as u16);
    write_whole(output, &line[..bytes])
}

// A run that has begun: the words of an accepted file, its state, and how many visits it has.
#[derive(Drop)]
struct Run<'a> {
    words: &'a [u16],
    state: &'a mut [u16],
    visits: usize,
    ghost begun: { Begun words.now (length state.now) visits },
}

impl Run<'_> {
    // Writes its lines, a buffer of text at a time.
    fn print<W: Write>(&mut self, output: &mut W, text: &mut [u8]) -> Result<(), Lost>
        requires { least_room ≤ length text.old }
        ensures text { Writes (W.contents output.old) (W.contents output.new)
            (text_on (file_in self.old.words.now) self.old.state.now) result }
    {
        let mut next = 0;
        while next <= self.visits {
            let page = run::run(self.words, self.state, next, text).unwrap();
            write_whole(output, &text[..page.bytes])?;
            next = page.next;
        }
        Ok(())
    }

    // The same through a buffer of so many bytes.
    fn print_through<W: Write, const ROOM: usize>(&mut self, output: &mut W) -> Result<(), Lost>
        requires { (least_room ≤ ROOM) × (ROOM ≤ TEXT) }
        ensures text { Writes (W.contents output.old) (W.contents output.new)
            (text_on (file_in self.old.words.now) self.old.state.now) result }
    {
        let mut text = [0u8; ROOM];
        self.print(output, &mut text)
    }

    // The same through the buffer that is given where the lines have room there, or through a larger one, which has to
    // be cleared. Through the largest alone one block and one scan take 149 thousand instructions, in place of 143;
    // without the middle one 128 blocks and one scan 271 thousand, in place of 267; through the smallest alone 128
    // blocks and ten scans 1.12 million, in place of 0.45.
    fn print_all<W: Write>(&mut self, output: &mut W, text: &mut [u8]) -> Result<(), Lost>
        requires { least_room ≤ length text.old }
        ensures text { Writes (W.contents output.old) (W.contents output.new)
            (text_on (file_in self.old.words.now) self.old.state.now) result }
    {
        if self.visits <= text.len() / VISIT_ROOM {
            self.print(output, text)
        } else if self.visits <= SHORT {
            self.print_through::<W, SHORT_TEXT>(output)
        } else {
            self.print_through::<W, TEXT>(output)
        }
    }
}

// A file's words, after which an odd byte may stand, and a buffer for text: their lines are written.
fn answer<W: Write>(output: &mut W, words: &[u16], odd: bool, text: &mut [u8]) -> Result<End, Lost>
    requires { least_room ≤ length text.old }
    ensures end { IfOk result (λ end. end ≡ end_of words.now odd) }
    ensures text { Writes (W.contents output.old) (W.contents output.new)
        (words_text words.now odd) result }
{
    let mut table = [UNUSED; MOST_STATE];
    let file = match file::start(words, odd, &mut table) {
        Ok(file) => file,
        Err(refusal) => {
            refuse(output, refusal)?;
            return Ok(End::Refused);
        }
    };
    let count = file.network.count() as usize;
    let mut run = Run {
        words,
        state: &mut table[..file.words + count],
        visits: file.scans as usize * count,
    };
    run.print_all(output, text)?;
    Ok(End::Written)
}

// Reads a file, and writes its lines; where it fails, a beginning of them is written.
fn bench<R: Read, W: Write>(input: &mut R, output: &mut W) -> Result<End, Lost>
    ensures end { IfOk result (λ end. IfSome (R.remaining input.old) (λ bytes. end ≡ end_of_bytes bytes)) }
    ensures whole { OnOk result (IfSome (R.remaining input.old) (λ bytes.
        Appends (W.contents output.old) (W.contents output.new) (bench_text bytes))) }
    ensures begun { OnErr result (IfSome (R.remaining input.old) (λ bytes.
        AppendsFront (W.contents output.old) (W.contents output.new) (bench_text bytes))) }
    ensures unread { result ≡ Err Input → output.new ≡ output.old }
{
    let mut bytes = [0u8; CHUNK];
    let mut words = [UNUSED; MOST_WORDS];
    let given = read_words(input, &mut bytes, &mut words)?;
    answer(output, &words[..given.count], given.odd, &mut bytes)
}

// The program's status: 0 where every line is written, 1 where a refusal's one line is; 3 to 5 where lines are missing.
fn status(end: Result<End, Lost>) -> u8
    ensures { result ≡ status_of end }
{
    match end {
        Ok(End::Written) => 0,
        Ok(End::Refused) => 1,
        Err(Lost::Output) => 3,
        Err(Lost::Input) => 4,
        Err(Lost::Reader) => 5,
    }
}

fn main(rt: HostRuntime) -> ExitCode {
    ExitCode::from(status(bench(&mut rt.stdin(), &mut rt.stdout())))
}
