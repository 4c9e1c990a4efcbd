//! Opens the journals of a folder: existing ones in parallel, and then missing ones one after the
//! other.

ghost use Rattle.std.specs.Prelude.{◌≡◌, ◌⊎◌, ◌<◌, ◌≤◌, ◌/◌, ℕ, IfErr, IfOk, IfSome, MatchOption};
ghost use Rattle.std.specs.Prelude.{◌+◌, length, vec_capacity, vec_len};
ghost use Rattle.urb_folder.specs.internal.JournalOutcomes.{FailsAtNode, OpensIn};
ghost use Rattle.urb_folder.specs.internal.OpenedPlaces.{AreFound, AreOpened, FailsAfter};
ghost use Rattle.urb_folder.specs.internal.OpenedPlaces.{IsFoundAt, IsGiven};

use crate::folder_fault::FolderFault;
use crate::journal::Journal;
use crate::node_journal::{Folder, FoundJournal, close_journal, find, length_at, make_next};
use sqlite_disk::Disk;
use std::alloc::Global;
use std::mem::replace;
use std::thread;
use std::thread::Threads;
use urb_sqlite::{FolderClaim, NodeClaims, NodeDisk};
use urb_stable::StoreFault;

/// How many bytes several database files may have in all if they are opened at the same time. An
/// opening checks all rows of a table, and holds them in memory meanwhile: about the file's length.
/// With this limit, the files of three nodes that have 100,000 short messages (up to 15 MB each)
/// are still opened at the same time.
const OPENED_TOGETHER: usize = 64_000_000;

// How many of `count` database files, each of at most `longest` bytes, are opened at the same time.
fn fit_together(count: usize, longest: usize) -> usize
    requires some { 0 < count }
    requires long { 0 < longest }
    ensures range { (0 < result) × (result ≤ count) }
    // Several files are opened at the same time only if as many files of `longest` bytes have at
    // most OPENED_TOGETHER bytes in all.
    ensures within { 1 < result → result ≤ OPENED_TOGETHER / longest }
    // A file has to wait only if one file more would have more bytes in all.
    ensures most { result < count → OPENED_TOGETHER / longest ≤ result }
{
    match OPENED_TOGETHER / longest {
        0 => 1,
        fitting if fitting < count => fitting,
        _ => count,
    }
}

// How many of the first `count` places are opened at the same time, judged by the longest database
// file among them.
fn count_threads(folder: &Folder<'_>, count: usize) -> usize
    requires { 0 < count }
    ensures { (0 < result) × (result ≤ count) }
{
    let mut longest = 1;
    for place in 0..count {
        if let Some(length) = length_at(folder, place)
            && longest < length
        {
            longest = length;
        }
    }
    fit_together(count, longest)
}

// The claim of the next node. No node follows the greatest one, so its place is refused.
fn claim_next<D: NodeDisk>(claims: &mut NodeClaims<D>) -> FoundJournal<D>
    ensures { (place : ℕ) → IsGiven place claims.old
        → IsFoundAt (OpensIn D.Disk D.NodeDisk.held) place result × IsGiven (place + 1) claims.new }
{
    match claims.take_next() {
        Some(claim) => Err(claim),
        None => Ok(Err(StoreFault::Device)),
    }
}

// A list with the claim of its node at each of `count` places, or `None` if memory was refused.
fn prepare_places<D: NodeDisk>(
    alloc: Global,
    count: usize,
    claim: FolderClaim<D>,
) -> Option<Vec<FoundJournal<D>>>
    ensures count { IfSome result (λ found. vec_len found ≡ count) }
    ensures each { IfSome result (λ found. AreFound (OpensIn D.Disk D.NodeDisk.held) found.items) }
{
    let Ok(mut found) = Vec::with_capacity(alloc, count) else {
        return None;
    };
    let mut claims = claim.into_nodes();
    for _ in 0..count {
        found.push_reserved(claim_next(&mut claims));
    }
    Some(found)
}

// Opens what is at a place, if it exists and was not opened yet.
fn find_there<D: NodeDisk>(folder: &Folder<'_>, it: &mut FoundJournal<D>)
    ensures { (place : ℕ) → IsFoundAt (OpensIn D.Disk D.NodeDisk.held) place it.old
        → IsFoundAt (OpensIn D.Disk D.NodeDisk.held) place it.new }
{
    let claimed = replace(it, Ok(Err(StoreFault::Device)));
    *it = find(folder, claimed);
}

// Looks at each place. It looks at several at the same time if their files are short enough and if
// threads can be made.
fn find_each<D: NodeDisk + Send, R: Threads + Sync>(
    rt: &R,
    folder: Folder<'_>,
    found: &mut [FoundJournal<D>],
)
    requires { AreFound (OpensIn D.Disk D.NodeDisk.held) found.old }
    ensures count { length found.new ≡ length found.old }
    ensures each { AreFound (OpensIn D.Disk D.NodeDisk.held) found.new }
{
    let count = found.len();
    if count == 0 {
        return;
    }
    let find_one = move |_place: usize, it: &mut FoundJournal<D>|
        ensures { (at : ℕ) → IsFoundAt (OpensIn _ D.NodeDisk.held) at it.entry.now
            → IsFoundAt (OpensIn _ D.NodeDisk.held) at it.exit.now }
    {
        find_there::<D>(&folder, it);
    };
    thread::for_each_mut(rt, found, count_threads(&folder, count), &find_one);
}

// Opens the place after these. It takes what was found there, or makes it if its node still has its
// claim.
fn open_next<D: NodeDisk>(
    folder: &Folder<'_>,
    found: FoundJournal<D>,
    earlier: &[Journal<D>],
) -> Result<Journal<D>, StoreFault>
    requires earlier { AreOpened (OpensIn D.Disk D.NodeDisk.held) (length earlier.now) earlier.now }
    requires found { IsFoundAt (OpensIn D.Disk D.NodeDisk.held) (length earlier.now) found }
    ensures { OpensIn D.Disk D.NodeDisk.held (length earlier.now) result }
{
    match found {
        Ok(outcome) => outcome,
        Err(claim) => make_next(folder, claim, earlier),
    }
}

// Opens all places in their order, up to the first fault, and returns that fault. What was found
// after it stays in `found`.
fn open_in_order<D: NodeDisk>(
    folder: &Folder<'_>,
    found: &mut [FoundJournal<D>],
    all: &mut Vec<Journal<D>>,
) -> Option<StoreFault>
    requires found { AreFound (OpensIn D.Disk D.NodeDisk.held) found.old }
    requires room { (vec_len all.old ≡ 0) × (length found.old ≤ vec_capacity all.old) }
    ensures { MatchOption result
        (AreOpened (OpensIn D.Disk D.NodeDisk.held) (length found.old) all.new.items)
        (FailsAfter (OpensIn D.Disk D.NodeDisk.held) (length found.old) all.new.items) }
{
    for place in 0..found.len() {
        let it = replace(&mut found[place], Ok(Err(StoreFault::Device)));
        match open_next(folder, it, all.as_slice()) {
            Ok(it) => all.push_reserved(it),
            Err(fault) => return Some(fault),
        }
    }
    None
}

// Closes everything that was found.
fn close_found<D: Disk + Drop>(folder: &Folder<'_>, found: Vec<FoundJournal<D>>) {
    for it in found {
        if let Ok(Ok(it)) = it {
            close_journal(folder, it);
        }
    }
}

/// Opens the journals at the first `count` places: first those that exist, in parallel unless their
/// files are long, and then the missing ones, in order. The fault names the first node whose place is
/// refused, or says that memory for the list was refused. After a fault, nothing was made after that
/// place, and everything that was opened is closed. No node's files are opened twice, because an
/// opening uses up the node's claim.
pub(crate) fn open_all<D: NodeDisk + Send, R: Threads + Sync>(
    rt: &R,
    alloc: Global,
    folder: Folder<'_>,
    count: usize,
    claim: FolderClaim<D>,
) -> Result<Vec<Journal<D>>, FolderFault>
    ensures all { IfOk result
        (λ all. AreOpened (OpensIn D.Disk D.NodeDisk.held) count all.items) }
    ensures fault { IfErr result (FailsAtNode D.Disk D.NodeDisk.held count) }
{
    let Ok(mut all) = Vec::with_capacity(alloc, count) else {
        return Err(FolderFault::NoMemory);
    };
    let Some(mut found) = prepare_places(alloc, count, claim) else {
        return Err(FolderFault::NoMemory);
    };
    find_each(rt, folder, found.as_mut_slice());
    match open_in_order(&folder, found.as_mut_slice(), &mut all) {
        None => Ok(all),
        Some(fault) => {
            let number = all.len() + 1;
            close_all(&folder, all);
            close_found(&folder, found);
            Err(FolderFault::Journal(number, fault))
        }
    }
}

/// Closes everything that `open_all` opened.
pub(crate) fn close_all<D: Disk + Drop>(folder: &Folder<'_>, all: Vec<Journal<D>>) {
    for it in all {
        close_journal(folder, it);
    }
}
