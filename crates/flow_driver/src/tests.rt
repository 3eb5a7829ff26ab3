// What the top call prints and answers, over files and sinks in memory.
use crate::{run_clean, run_words};
use source_io::{CleanFiles, CleanSink, MemoryFiles, MemorySink, Open};
use spark_base::Bytes;
use std::alloc::{AllocError, Global};
use std::test::Fail;

/// The counter: its Global says how it is used.
const COUNTER: &str = "package Counter is
   Count : Integer := 0;
   procedure Inc with Global => (In_Out => Count);
end Counter;
package body Counter is
   procedure Inc is
   begin
      Count := Count + 1;
   end Inc;
end Counter;
";

/// The counter with an input that is written.
const WRITTEN_INPUT: &str = "package Counter is
   Count : Integer := 0;
   procedure Inc with Global => (Input => Count);
end Counter;
package body Counter is
   procedure Inc is
   begin
      Count := Count + 1;
   end Inc;
end Counter;
";

/// The counter with an output that is read.
const READ_OUTPUT: &str = "package Counter is
   Count : Integer := 0;
   procedure Inc with Global => (Output => Count);
end Counter;
package body Counter is
   procedure Inc is
   begin
      Count := Count + 1;
   end Inc;
end Counter;
";

/// An output that one path leaves: what it held before may be seen behind the call.
const LEFT_OUTPUT: &str = "package P is
   X : Integer := 0;
   Y : Integer := 0;
   procedure Set with Global => (Input => Y, Output => X);
end P;
package body P is
   procedure Set is
   begin
      if Y > 0 then
         X := 1;
      end if;
   end Set;
end P;
";

/// The same with an else that assigns it.
const SET_OUTPUT: &str = "package P is
   X : Integer := 0;
   Y : Integer := 0;
   procedure Set with Global => (Input => Y, Output => X);
end P;
package body P is
   procedure Set is
   begin
      if Y > 0 then
         X := 1;
      else
         X := Y;
      end if;
   end Set;
end P;
";

/// An output that a test reads, on one of two paths that both assign it.
const TESTED_OUTPUT: &str = "package P is
   X : Integer := 0;
   Y : Integer := 0;
   procedure Set with Global => (Input => Y, Output => X);
end P;
package body P is
   procedure Set is
   begin
      if Y /= 0 then
         if Y + 1 <= X then
            null;
         end if;
      end if;
      X := 1;
   end Set;
end P;
";

/// The counter with nothing listed.
const UNLISTED: &str = "package Counter is
   Count : Integer := 0;
   procedure Inc with Global => null;
end Counter;
package body Counter is
   procedure Inc is
   begin
      Count := Count + 1;
   end Inc;
end Counter;
";

/// Three variables that are not listed, each used in another way, and a statement that does nothing.
const USED: &str = "package P is
   X : Integer := 1; Y : Integer := 2; Z : Integer := 3;
   procedure Q with Global => null;
end P;
package body P is
   procedure Q is
   begin
      null;
      Y := X - 7;
      Z := Z;
   end Q;
end P;
";

/// A procedure with a formal: outside the first path.
const OUTSIDE: &str = "package P is
   procedure Q (A : in Integer; R : out Integer);
end P;
";

/// A main procedure: outside the first path.
const MAIN: &str = "procedure Main is
begin
   null;
end Main;
";

/// What is printed where there is nothing to tell.
const SILENT: &str = "sparkflow: 0 errors, 0 warnings\n";

/// What is printed of `inc.ada` where it is outside the subset.
const REFUSED: &str =
    "inc.ada:1:1: refused: \"source\" is outside the subset [U01]\nsparkflow: 1 errors, 0 warnings\n";

/// The name of a file, its bytes, and the status and the text that come of it. Those of the examples in docs/MESSAGES.md
/// are among them, in the very bytes that stand there.
const SOURCES: [(&str, &str, u8, &str); 13] = [
    ("inc.ada", COUNTER, 0, SILENT),
    (
        "inc.ada",
        UNLISTED,
        1,
        "inc.ada:6:14: error: \"Counter.Count\" is In_Out in \"Counter.Inc\" but its Global does not list it [G01]\nsparkflow: 1 errors, 0 warnings\n",
    ),
    (
        "p.ada",
        USED,
        1,
        "p.ada:6:14: error: \"P.X\" is Input in \"P.Q\" but its Global does not list it [G01]\np.ada:6:14: error: \"P.Y\" is Output in \"P.Q\" but its Global does not list it [G01]\np.ada:6:14: error: \"P.Z\" is In_Out in \"P.Q\" but its Global does not list it [G01]\nsparkflow: 3 errors, 0 warnings\n",
    ),
    (
        "inc.ada",
        WRITTEN_INPUT,
        1,
        "inc.ada:3:43: error: \"Counter.Count\" is Input but \"Counter.Inc\" writes it [G02]\nsparkflow: 1 errors, 0 warnings\n",
    ),
    (
        "inc.ada",
        READ_OUTPUT,
        1,
        "inc.ada:3:44: error: \"Counter.Count\" is Output but \"Counter.Inc\" may read its initial value or leave it; it must be In_Out [G03]\nsparkflow: 1 errors, 0 warnings\n",
    ),
    (
        "p.ada",
        LEFT_OUTPUT,
        1,
        "p.ada:4:56: error: \"P.X\" is Output but \"P.Set\" may read its initial value or leave it; it must be In_Out [G03]\nsparkflow: 1 errors, 0 warnings\n",
    ),
    (
        "p.ada",
        TESTED_OUTPUT,
        1,
        "p.ada:4:56: error: \"P.X\" is Output but \"P.Set\" may read its initial value or leave it; it must be In_Out [G03]\nsparkflow: 1 errors, 0 warnings\n",
    ),
    ("p.ada", SET_OUTPUT, 0, SILENT),
    (
        "main.ada",
        MAIN,
        2,
        "main.ada:1:1: refused: \"source\" is outside the subset [U01]\nsparkflow: 1 errors, 0 warnings\n",
    ),
    ("inc.ada", OUTSIDE, 2, REFUSED),
    ("inc.ada", "", 2, REFUSED),
    ("inc.ada", "\n", 2, REFUSED),
    ("inc.ada", "package", 2, REFUSED),
];

fn words_of(alloc: Global, list: &[&str]) -> Result<Vec<String>, Fail> {
    let mut words = Vec::new(alloc);
    for word in list {
        words.push(String::from_str(alloc, word)?)?;
    }
    Ok(words)
}

/// One file.
fn file_of(alloc: Global, name: &str, source: &str) -> Result<Vec<(Bytes, Bytes)>, Fail> {
    let mut list = Vec::new(alloc);
    let name = Bytes::from_slice(alloc, name.as_bytes())?;
    let bytes = Bytes::from_slice(alloc, source.as_bytes())?;
    list.push((name, bytes))?;
    Ok(list)
}

/// What a call answered, and what it put on its sinks.
#[derive(Drop)]
struct Answer {
    status: u8,
    out: MemorySink,
    err: MemorySink,
}

/// Calls `run_words` on some files, with a sink that takes so many bytes.
fn call(
    alloc: Global,
    files: MemoryFiles,
    words: &[&str],
    stop: Option<usize>,
) -> Result<Answer, Fail> {
    let words = words_of(alloc, words)?;
    let mut files = files;
    let mut out = MemorySink::new(alloc, stop);
    let mut err = MemorySink::new(alloc, None);
    let status = run_words(
        alloc,
        words.as_slice(),
        &mut files,
        &mut out,
        &mut err,
        &Open,
    );
    Ok(Answer { status, out, err })
}

/// Calls it on one file, `inc.ada`, of which the calls of these numbers fail.
fn call_on_inc(
    alloc: Global,
    source: &str,
    failing: &[u32],
    words: &[&str],
    stop: Option<usize>,
) -> Result<Answer, Fail> {
    let list = file_of(alloc, "inc.ada", source)?;
    let files = MemoryFiles::new(alloc, list, Vec::from_slice(alloc, failing)?);
    call(alloc, files, words, stop)
}

/// Calls it on one file of this name, which nothing keeps from being read and printed.
fn printed(alloc: Global, name: &str, source: &str) -> Result<Answer, Fail> {
    let files = MemoryFiles::new(alloc, file_of(alloc, name, source)?, Vec::new(alloc));
    call(alloc, files, &[name], None)
}

#[test]
fn sources_and_what_is_printed_of_them(rt: HostRuntime) -> Result<(), Fail> {
    for (name, source, status, text) in SOURCES {
        let got = printed(rt.alloc(), name, source)?;
        assert_eq!(rt; got.status, status, "of {name}, where {text}");
        assert_eq!(rt; got.out.as_slice(), text.as_bytes());
        assert_eq!(rt; got.err.as_slice(), b"".as_slice());
    }
    Ok(())
}

/// A source that is accepted, with so many ifs, one in another, before its own.
fn with_ifs(alloc: Global, depth: usize) -> Result<String, AllocError> {
    let mut text = String::new(alloc);
    for _ in 0..depth {
        text.push_str("if Y > 0 then ")?;
    }
    text.push_str("null; ")?;
    for _ in 0..depth {
        text.push_str("end if; ")?;
    }
    text.push_str("if Y > 0 then")?;
    SET_OUTPUT.replace(alloc, "if Y > 0 then", text.as_str())
}

#[test]
fn open_ifs_have_a_limit(rt: HostRuntime) -> Result<(), Fail> {
    let deepest = with_ifs(rt.alloc(), 128)?;
    let got = printed(rt.alloc(), "inc.ada", deepest.as_str())?;
    assert_eq!(rt; got.status, 0);
    let deeper = with_ifs(rt.alloc(), 129)?;
    let got = printed(rt.alloc(), "inc.ada", deeper.as_str())?;
    assert_eq!(rt; got.status, 2);
    assert_eq!(rt; got.out.as_slice(), REFUSED.as_bytes());
    Ok(())
}

#[test]
fn sink_that_stops_after_ten_bytes(rt: HostRuntime) -> Result<(), Fail> {
    let got = call_on_inc(rt.alloc(), WRITTEN_INPUT, &[], &["inc.ada"], Some(10))?;
    assert_eq!(rt; got.status, 5);
    assert_eq!(rt; got.out.as_slice(), b"inc.ada:3:".as_slice());
    assert_eq!(rt; got.err.as_slice(), b"sparkflow: write failed\n".as_slice());
    Ok(())
}

#[test]
fn words_that_are_refused(rt: HostRuntime) -> Result<(), Fail> {
    let lists: [&[&str]; 3] = [&["-x"], &[], &["inc.ada", "inc.ada"]];
    for words in lists {
        let got = call_on_inc(rt.alloc(), COUNTER, &[], words, None)?;
        assert_eq!(rt; got.status, 3);
        assert_eq!(rt; got.out.as_slice(), b"".as_slice());
        assert_eq!(rt;
            got.err.as_slice(),
            b"sparkflow: words refused\n".as_slice()
        );
    }
    Ok(())
}

#[test]
fn file_that_cannot_be_read(rt: HostRuntime) -> Result<(), Fail> {
    let absent = call_on_inc(rt.alloc(), COUNTER, &[], &["b.ada"], None)?;
    assert_eq!(rt; absent.status, 4);
    assert_eq!(rt; absent.out.as_slice(), b"".as_slice());
    assert_eq!(rt;
        absent.err.as_slice(),
        b"sparkflow: cannot read b.ada\n".as_slice()
    );
    let failing = call_on_inc(rt.alloc(), COUNTER, &[1], &["inc.ada"], None)?;
    assert_eq!(rt; failing.status, 4);
    assert_eq!(rt;
        failing.err.as_slice(),
        b"sparkflow: cannot read inc.ada\n".as_slice()
    );
    Ok(())
}

#[test]
fn objects_that_never_fail(rt: HostRuntime) -> Result<(), Fail> {
    let alloc = rt.alloc();
    let words = words_of(alloc, &["inc.ada"])?;
    let mut files = CleanFiles::new(alloc, file_of(alloc, "inc.ada", COUNTER)?);
    let mut out = CleanSink::new(alloc);
    let mut err = CleanSink::new(alloc);
    let status = run_clean(
        alloc,
        words.as_slice(),
        &mut files,
        &mut out,
        &mut err,
        &Open,
    );
    assert_eq!(rt; status, 0);
    assert_eq!(rt; out.as_slice(), SILENT.as_bytes());
    Ok(())
}
