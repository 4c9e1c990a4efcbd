//! Journals in a folder: what closing leaves of their files, even if other journals have taken
//! their place.

use std::fs;
use std::fs::Permissions;
use std::marker::Brand;
use std::os::unix::fs::{MetadataExt, PermissionsExt};
use std::rt::HostRuntime;
use std::test::Fail;
use std::thread::Threads;
use urb_folder::{FolderClaim, FolderFault, Journal, NodeFile, close_journals, open_journals};

const FOLDER: &str = "urbd_folder";

const AWAY: &str = "urbd_folder_away";

// Whether the folder has both nodes' journals, and logs beside both, or beside neither, as asked.
fn has_journals(rt: &HostRuntime, has_logs: bool) -> bool {
    fs::metadata(rt, "urbd_folder/node-1.db").is_ok()
        && fs::metadata(rt, "urbd_folder/node-2.db").is_ok()
        && fs::metadata(rt, "urbd_folder/node-1.db-wal").is_ok() == has_logs
        && fs::metadata(rt, "urbd_folder/node-2.db-wal").is_ok() == has_logs
}

// Makes the folder anew, and says whether that worked.
fn is_cleared(rt: &HostRuntime) -> bool {
    let _ = fs::remove_dir_all(rt, FOLDER);
    fs::create_dir(rt, FOLDER).is_ok()
}

// Opens the journals of two nodes in the folder.
fn open_two<R: Threads + Sync>(
    threads: &R,
    rt: &HostRuntime,
) -> Result<Vec<Journal<NodeFile<Brand>>>, FolderFault> {
    open_journals::<NodeFile<Brand>, R>(threads, rt, FOLDER, 2, FolderClaim::new())
}

#[test]
fn of_each_closed_journal_one_file_is_left(rt: HostRuntime) -> Result<(), Fail> {
    assert!(rt; is_cleared(&rt));
    let Ok(journals) = open_two(&rt, &rt) else {
        return Err("journals")?;
    };
    let were_open = has_journals(&rt, true);
    close_journals(&rt, FOLDER, journals);
    assert!(rt; were_open && has_journals(&rt, false));
    fs::remove_dir_all(&rt, FOLDER)?;
    Ok(())
}

// The bits of the mode of the file at this path that say who may use it.
fn access_of(rt: &HostRuntime, path: &str) -> Option<u32> {
    Some(fs::metadata(rt, path).ok()?.mode() & 0o777)
}

#[test]
fn a_new_journal_belongs_to_its_owner_alone(rt: HostRuntime) -> Result<(), Fail> {
    assert!(rt; is_cleared(&rt));
    let Ok(journals) = open_two(&rt, &rt) else {
        return Err("journals")?;
    };
    for path in [
        "urbd_folder/node-1.db",
        "urbd_folder/node-1.db-wal",
        "urbd_folder/node-2.db",
        "urbd_folder/node-2.db-wal",
    ] {
        assert_eq!(rt; access_of(&rt, path), Some(0o600), "{path}");
    }
    close_journals(&rt, FOLDER, journals);
    // An opening doesn't change the mode of a journal that exists.
    fs::set_permissions(&rt, "urbd_folder/node-1.db", Permissions::from_mode(0o640))?;
    let Ok(journals) = open_two(&rt, &rt) else {
        return Err("journals")?;
    };
    assert_eq!(rt; access_of(&rt, "urbd_folder/node-1.db"), Some(0o640));
    assert_eq!(rt; access_of(&rt, "urbd_folder/node-2.db"), Some(0o600));
    close_journals(&rt, FOLDER, journals);
    fs::remove_dir_all(&rt, FOLDER)?;
    Ok(())
}

#[test]
fn the_logs_of_journals_in_their_place_stay(rt: HostRuntime) -> Result<(), Fail> {
    let _ = fs::remove_dir_all(&rt, AWAY);
    assert!(rt; is_cleared(&rt));
    let Ok(moved) = open_two(&rt, &rt) else {
        return Err("journals")?;
    };
    let is_moved = fs::rename(&rt, FOLDER, AWAY).is_ok() && is_cleared(&rt);
    let Ok(others) = open_two(&rt, &rt) else {
        return Err("others")?;
    };
    close_journals(&rt, FOLDER, moved);
    let stay = has_journals(&rt, true);
    close_journals(&rt, FOLDER, others);
    assert!(rt; is_moved && stay && has_journals(&rt, false));
    fs::remove_dir_all(&rt, FOLDER)?;
    fs::remove_dir_all(&rt, AWAY)?;
    Ok(())
}
