//! What a start that its folder refuses says on standard error: the journal, and the cause.

use super::starts::is_changed;
use super::visits::{Leave, is_cleared, open_and_leave};
use std::fs;
use std::marker::Brand;
use std::net::{Net, TcpListener, TcpStream};
use std::rt::HostRuntime;
use std::test::Fail;
use std::thread::Threads;
use urb_daemon::report_folder_fault;
use urb_folder::{FolderClaim, NodeFile, close_journals, open_journals};
use urb_options::ServeOptions;
use urb_terminal::Terminal;

const FOLDER: &str = "urbd_faults";

const ONE: &str = "urbd_faults/node-1.db";

const TWO: &str = "urbd_faults/node-2.db";

const THREE: &str = "urbd_faults/node-3.db";

// What a start of a group of two says of the folder. Nothing if the folder opens.
fn line_of<R: Threads + Sync + Net<Listener = TcpListener, Stream = TcpStream>>(
    threads: &R,
    rt: &HostRuntime,
) -> Option<Vec<u8>> {
    let serving = ServeOptions::new(2, 100, FOLDER, 7400, 20)?;
    let terminal = Terminal::new(rt.alloc(), &[], b"", true);
    match open_journals::<NodeFile<Brand>, R>(threads, rt, FOLDER, 2, FolderClaim::new()) {
        Ok(journals) => {
            close_journals(rt, FOLDER, journals);
            None
        }
        Err(why) => {
            let status = report_folder_fault(threads, rt, &terminal, serving, why);
            Some(terminal.into_shown(status).errors)
        }
    }
}

// Whether a start of a group of two says this of the folder.
fn says<R: Threads + Sync + Net<Listener = TcpListener, Stream = TcpStream>>(
    threads: &R,
    rt: &HostRuntime,
    line: &[u8],
) -> bool {
    line_of(threads, rt).is_some_and(|said| said.as_slice() == line)
}

#[test]
fn a_refused_folder_is_named_with_its_cause(rt: HostRuntime) -> Result<(), Fail> {
    let _ = fs::remove_dir_all(&rt, FOLDER);
    let line = b"urbd: refused 15 0: urbd_faults/node-1.db: the folder doesn't exist\n".as_slice();
    assert!(rt; says(&rt, &rt, line));
    fs::write(&rt, FOLDER, b"x".as_slice())?;
    let line = b"urbd: refused 15 0: urbd_faults/node-1.db: the folder's name is that of a file\n";
    assert!(rt; says(&rt, &rt, line));
    fs::remove_file(&rt, FOLDER)?;
    Ok(())
}

#[test]
fn a_refused_journal_is_named_with_its_cause(rt: HostRuntime) -> Result<(), Fail> {
    assert!(rt; is_cleared(&rt, FOLDER));
    let Ok(held) = open_journals::<NodeFile<Brand>, HostRuntime>(
        &rt,
        &rt,
        FOLDER,
        1,
        FolderClaim::new(),
    ) else {
        return Err("a journal".into());
    };
    let line = b"urbd: refused 15 0: urbd_faults/node-1.db: another process holds it\n".as_slice();
    assert!(rt; says(&rt, &rt, line));
    close_journals(&rt, FOLDER, held);
    fs::write(&rt, TWO, [b'x'; 4096].as_slice())?;
    let line =
        b"urbd: refused 15 0: urbd_faults/node-2.db: it is no journal, or its device failed\n";
    assert!(rt; says(&rt, &rt, line));
    fs::remove_file(&rt, TWO)?;
    fs::create_dir(&rt, TWO)?;
    let line = b"urbd: refused 15 0: urbd_faults/node-2.db: the name is not that of a file\n";
    assert!(rt; says(&rt, &rt, line));
    fs::remove_dir(&rt, TWO)?;
    fs::hard_link(&rt, ONE, TWO)?;
    let line =
        b"urbd: refused 15 0: urbd_faults/node-1.db: the file has a second name (a hard link)\n";
    assert!(rt; says(&rt, &rt, line));
    fs::remove_file(&rt, TWO)?;
    assert!(rt; open_and_leave(&rt, &rt, FOLDER, 2, Leave::Closed).is_ok());
    Ok(())
}

#[test]
fn bad_rows_and_foreign_records_are_named_with_their_file(rt: HostRuntime) -> Result<(), Fail> {
    assert!(rt; is_cleared(&rt, FOLDER));
    assert!(rt; open_and_leave(&rt, &rt, FOLDER, 3, Leave::Closed).is_ok());
    let insert = "INSERT INTO journal2 VALUES (1, 9, 1, 1, 7, 1, x'61')";
    assert!(rt; is_changed(&rt, THREE, insert));
    let line =
        b"urbd: refused 14 0: urbd_faults/node-3.db: it has records, and the group has 2 nodes\n";
    assert!(rt; says(&rt, &rt, line));
    fs::remove_file(&rt, THREE)?;
    assert!(rt; is_changed(&rt, TWO, insert));
    let line = b"urbd: refused 17 1: urbd_faults/node-2.db: row 1 is no record\n".as_slice();
    assert!(rt; says(&rt, &rt, line));
    Ok(())
}
