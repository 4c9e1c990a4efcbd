//! The program, from its command line to its status.

ghost use Rattle.std.specs.Prelude.{◌≡◌, map, vec_len};
ghost use Rattle.urb_sqlite.specs.FoundJournals.{AreFoundIn};
ghost use Rattle.urb_folder.specs.OpenedJournals.{AreOfNodes};
ghost use Rattle.urb_daemon.specs.Programs.{EndsProgram, EndsServing, EndsWords, RanFolder};
ghost use Rattle.urb_daemon.specs.Runs.{limits_of};

use crate::console::Console;
use crate::error_output::ErrorOutput;
use crate::opening_fault::report_folder_fault;
use crate::prompted_input::PromptedInput;
use crate::reports::Reports;
use crate::run::{Host, report_end, run_journals};
use crate::stage::{ProgramStage, RunInput, StageReports};
use crate::standard_streams::Streams;
use crate::surroundings::Surroundings;
use std::convert::AsStr;
use std::io;
use std::io::{IsTerminal, Read, Write};
use std::net::{Net, TcpListener, TcpStream};
use std::rt::{Env, HostRuntime};
use urb_cli::run_errand;
use urb_folder::{FolderClaim, Journal, NodeDisk, close_journals, open_journals};
use urb_options::{Fault, Line, ServeOptions, parse_line, read_words, report_fault};
use urb_stable::Stable;

// Runs a group over its journals until the input ends, closes them, and returns the program's status.
fn run_folder<
    D: NodeDisk + Send,
    R,
    W: Write,
    I: Read + IsTerminal + Drop,
    E: Eprint + StageReports + Sync,
>(
    rt: &R,
    files: &HostRuntime,
    output: &mut W,
    input: I,
    errors: &E,
    serving: ServeOptions<'_>,
    journals: Vec<Journal<D>>,
) -> u8
where
    R: Host + Net<Listener = TcpListener, Stream = TcpStream>,
    requires count { vec_len journals ≡ serving.nodes }
    requires nodes { AreOfNodes (λ j. j.node) journals.items }
    requires found { AreFoundIn ⟦<Journal<D> as Stable>⟧ D.NodeDisk.held journals.items }
    ensures { RanFolder ⟦<Journal<D> as Stable>⟧ (λ j. j.node) D.NodeDisk.held
        (limits_of serving.entry) (W.contents output.new) result }
{
    let (reports, alloc) = (Reports::new(errors), files.alloc());
    let input = PromptedInput::new(input, errors);
    let mut input = RunInput { input, errors };
    let mut console = Console::new(output, &mut input);
    let (journals, ended) = run_journals(rt, alloc, serving, journals, &reports, &mut console);
    errors.reach(ProgramStage::Files);
    close_journals(files, serving.dir, journals);
    errors.reach(ProgramStage::Quiet);
    report_end(output, errors, ended)
}

/// Runs a group over the journals of its folder until the input ends, closes them, and returns the
/// program's status. `rt` gives threads and sockets, and `files` the folder. `output` gets `open N`
/// and `closed E`. `errors` shows everything else, and how far a start or a stop is. The call uses up
/// the folder's claim, because `D` names what the files held at this one opening.
pub fn serve_folder<
    D: NodeDisk + Send,
    R,
    W: Write,
    I: Read + IsTerminal + Drop,
    E: Eprint + StageReports + Sync,
>(
    rt: &R,
    files: &HostRuntime,
    output: &mut W,
    input: I,
    errors: &E,
    serving: ServeOptions<'_>,
    claim: FolderClaim<D>,
) -> u8
where
    R: Host + Net<Listener = TcpListener, Stream = TcpStream>,
    // The run is over the journals that were opened. The status and the last line are those of its
    // end.
    ensures { EndsServing ⟦<Journal<D> as Stable>⟧ (λ j. j.node) D.NodeDisk.held
        (limits_of serving.entry) (W.contents output.old) (W.contents output.new) result }
{
    let (dir, nodes) = (serving.dir, serving.nodes);
    errors.reach(ProgramStage::Journals);
    match open_journals::<D, R>(rt, files, dir, nodes, claim) {
        Ok(journals) => {
            errors.reach(ProgramStage::Records);
            run_folder(rt, files, output, input, errors, serving, journals)
        }
        Err(why) => {
            errors.reach(ProgramStage::Quiet);
            report_folder_fault(rt, files, errors, serving, why)
        }
    }
}

/// Does what these words ask for, and returns the program's status. `rt` gives threads, sockets and
/// the time, `files` the folder, and `terminal` the streams. A group runs until `input` ends. It
/// writes its errors to `errors`, on a thread of its own. `D` names what the journals' files held.
pub fn run_words<D: NodeDisk + Send, R, T, I, O, S: AsStr>(
    _streams: &Streams,
    rt: R,
    files: &HostRuntime,
    terminal: &T,
    input: I,
    errors: O,
    words: &[S],
    claim: FolderClaim<D>,
) -> u8
where
    R: Host + Net<Listener = TcpListener, Stream = TcpStream> + Copy + Send + Drop + 'static,
    T: AllocGlobal + Print + Eprint + Input,
    I: Read + IsTerminal + Drop,
    O: Eprint + Send + Drop + 'static,
    ensures { EndsWords ⟦<Journal<D> as Stable>⟧ (λ j. j.node) D.NodeDisk.held
        (map S.text words.entry.now) result }
{
    let serving = match parse_line(terminal, terminal.alloc(), words) {
        Ok(Line::Serve(serving)) => serving,
        Ok(Line::Errand(errand)) => return run_errand(&Surroundings { rt: &rt, terminal }, errand),
        Err(status) => return status,
    };
    let Ok(errors) = ErrorOutput::start(rt, files.alloc(), errors) else {
        return report_fault(terminal, Fault::NoMemory);
    };
    let mut output = io::writer(terminal);
    let status = serve_folder::<D, R, _, I, _>(
        &rt,
        files,
        &mut output,
        input,
        &errors,
        serving,
        claim,
    );
    errors.finish();
    status
}

/// Does what the command line asks for, and returns the program's status. It is what the program
/// `urbd` does. First it takes the standard streams, so call it before anything else is opened. If
/// the words can't be read, the status is 1, or 3 if one of them isn't UTF-8. `claim` is the right to
/// open the files of a folder's nodes, each once.
pub fn run_program<D: NodeDisk + Send, R, T, I, O>(
    rt: R,
    files: &HostRuntime,
    terminal: &T,
    input: I,
    errors: O,
    claim: FolderClaim<D>,
) -> u8
where
    R: Host + Net<Listener = TcpListener, Stream = TcpStream> + Copy + Send + Drop + 'static,
    T: Env + AllocGlobal + Print + Eprint + Input,
    I: Read + IsTerminal + Drop,
    O: Eprint + Send + Drop + 'static,
    ensures { EndsProgram ⟦<Journal<D> as Stable>⟧ (λ j. j.node) D.NodeDisk.held result }
{
    let streams = Streams::take(files);
    match read_words(terminal) {
        Ok(words) => run_words::<D, R, T, I, O, String>(
            &streams,
            rt,
            files,
            terminal,
            input,
            errors,
            words.as_slice(),
            claim,
        ),
        Err(status) => status,
    }
}
