// The call that does all that the program does.
ghost use Rattle.std.specs.Prelude.{◌≡◌, ◌⊎◌, ℕ, ◌+◌, ◌≤◌, List, [], Some, None, Err, IsSome, IfSome, IsSomeAnd};
ghost use Rattle.outside_io.specs.Count.{Rose, HasCause};
ghost use Rattle.outside_io.specs.Files.{FolderState};
ghost use Rattle.sql_values.specs.Limits.{max_script_bytes};
ghost use Rattle.command_line.specs.Words.{options_of, word_texts};
ghost use Rattle.workspace.specs.declared.refusal.Refusal.{Refusal};
ghost use Rattle.shell.specs.Script.{Answer};
ghost use Rattle.shell.specs.Serve.{IsScript, IsAnswer, RunsSource, Serves, Demonstrates, RefusesWords, NeverFalls, usage_line};
ghost use Rattle.shell.specs.Source.{TakesAtMost};

use crate::Status;
use crate::demonstration::run_demonstration;
use crate::outlets::Outlets;
use crate::run::run_source;
use crate::sink::put_text;
use bouquet_run::Book;
use command_line::{WordsFault, read_words};
use outside_io::{Folder, Sink, Source};
use std::alloc::Global;
use std::hash::RandomState;

// What is printed where the arguments of the command line aren't well-formed.
static USAGE: &str = "usage: bouquet [--max-work N] [--demo N]\n";

// Puts the usage line.
fn refuse_words<K: Sink>(sink: &mut K) -> Status
    ensures refuses { RefusesWords usage_line result (K.got sink.old) (K.got sink.new) }
    ensures sink { HasCause (result ≡ Status.WriteFault) (K.faults sink.old) (K.faults sink.new) }
{
    match put_text(sink, USAGE.as_bytes()) {
        Ok(()) => Status::BadWords,
        Err(ended) => ended,
    }
}

/// Does what the arguments ask for. `words` are those after the program's name: at most one `--max-work N` or
/// `--max-work=N`, the most units of work of a query and of an audit, 0 to 2^62, and at most one `--demo N` or `--demo=N`, 1
/// to 2000. It reads the script from the source, carries its statements out over the folder and puts what they print into
/// the sink. Under `--demo` it does so with the script and the folder of the demonstration, and leaves source and folder
/// alone. What SELECT and RUN paid is entered in the book, in which nothing stands before. Texts and names are hashed by
/// `key`, a random number: no promise names it, so nothing that is printed, written or paid depends on it.
pub fn serve<S: Source, F: Folder, K: Sink>(
    alloc: Global,
    key: RandomState,
    words: &[String],
    source: &mut S,
    folder: &mut F,
    sink: &mut K,
    book: &mut Book,
) -> Status
    requires unpaid { book.old ≡ 0 }

    // Where the arguments are no command line, the usage line goes out and nothing is paid.
    ensures bad_words { result ≡ Status.BadWords → options_of (word_texts words.now) ≡ None }
    ensures usage { options_of (word_texts words.now) ≡ None →
        RefusesWords usage_line result (K.got sink.old) (K.got sink.new) }
    ensures unpaid_words { options_of (word_texts words.now) ≡ None → book.new ≡ book.old }

    // There, and where they ask for the demonstration, source and folder are left alone.
    ensures untaken { ¬ (RunsSource (word_texts words.now)) → source.new ≡ source.old }
    ensures unread { ¬ (RunsSource (word_texts words.now)) → folder.new ≡ folder.old }

    // Else the text of the script goes out. Under Done and Refused all of it does, the folder holds what the statements
    // leave, exactly the work that SELECT and RUN print was entered in the book, and each query was answered within its
    // bouquet's bound. Under every other status the run broke off in front of a statement, and all that holds of those
    // before it: ReadFault comes where the source failed, or the folder for a statement that asks for a file; WriteFault
    // where the sink failed, which got a beginning of the next text, or the folder for a statement that writes a file, which
    // may hold anything. Where no count of faults rose, the run ends as that same text does, or out of memory.
    ensures serves { IfSome (options_of (word_texts words.now)) (λ options. options.demo ≡ None →
        IfSome (S.left source.old) (λ script.
        Serves options.max_work (Rose (S.faults source.old) (S.faults source.new))
        (Rose (K.faults sink.old) (K.faults sink.new)) script
        (F.state folder.old) (F.state folder.new) result (K.got sink.old) (K.got sink.new)
        book.new)) }
    ensures emptied { result ≡ Status.Done → RunsSource (word_texts words.now) →
        IfSome (S.left source.old) (λ _. S.left source.new ≡ Some []) }
    ensures bounded { IfSome (S.left source.old)
        (TakesAtMost (max_script_bytes + 1) (S.left source.new)) }

    // Under `--demo` the same holds of its script and its folder, in which no call fails.
    ensures demonstrates { IfSome (options_of (word_texts words.now)) (λ options.
        IfSome options.demo (λ number. Demonstrates options.max_work number
        (Rose (K.faults sink.old) (K.faults sink.new)) result (K.got sink.old) (K.got sink.new)
        book.new)) }

    // The folder isn't asked where the whole script is refused; nor is anything paid there.
    ensures folder { NeverFalls (F.state folder.old) (F.state folder.new) }
    ensures unread_script { IfSome (S.left source.old) (λ script.
        (why : Refusal) → IsScript script (Err why) →
        F.state folder.new ≡ F.state folder.old) }
    ensures unpaid_script { RunsSource (word_texts words.now) →
        IfSome (S.left source.old) (λ script.
        (why : Refusal) → IsScript script (Err why) → book.new ≡ book.old) }

    // Each fault has its cause.
    ensures read_fault { result ≡ Status.ReadFault →
        Rose (S.faults source.old) (S.faults source.new)
        ⊎ Rose (F.state folder.old).read_faults (F.state folder.new).read_faults }
    ensures write_fault { result ≡ Status.WriteFault →
        Rose (K.faults sink.old) (K.faults sink.new)
        ⊎ Rose (F.state folder.old).write_faults (F.state folder.new).write_faults }
    ensures sink { K.faults sink.old ≤ K.faults sink.new }
{
    let options = match read_words(alloc, words) {
        Ok(options) => options,
        Err(WordsFault::BadWords) => return refuse_words(sink),
        Err(WordsFault::NoMemory) => return Status::NoMemory,
    };
    let mut outlets = Outlets {
        max_work: options.max_work,
        folder,
        sink,
        book,
    };
    match options.demo {
        Some(number) => run_demonstration(alloc, key, number, &mut outlets),
        None => run_source(alloc, key, source, &mut outlets),
    }
}

/// Over a folder of known contents only one answer is due to a script, so what `serve` says of the answer that is due it
/// says of one text.
pub fn one_answer_is_due()
    ensures { (max_work : ℕ) (script : List ℕ) (old new other : FolderState) (one two : Answer) →
        IsSome old.files → IsAnswer max_work script old new one
        → IsAnswer max_work script old other two → one ≡ two }
{}
