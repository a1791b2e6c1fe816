// What the rules say of these pages. Transactions are counted from 100 on.
use crate::lawful::{fetch, freeze, place, prune};
use clog::pages::TwoBitPages;
use page::{Mark, Page, PageHeader, Pointer, pointer_at, version_of};
use page_build::{FRESH, Head, bare_page, normal, put_pointer, put_version};
use page_write::Origin;
use snapshot::active::Active;
use std::test::Fail;
use xid::source::StatusSource;
use xid::statuses::End;

// Opens as many numbers as there are ends, and ends each.
fn end_all<S: StatusSource>(source: &mut S, ends: &[End]) {
    for end in ends {
        if let Ok(x) = source.open_next() {
            let _ = source.close(x, *end);
        }
    }
}

// A version inserted by a transaction, and replaced on its page.
fn replaced(creator: u32, remover: u32, by: u16) -> Head {
    Head {
        creator,
        remover,
        ctid: (0, by),
        infomask2: 0x4001,
        infomask: 0,
    }
}

// The last version of a chain, at its own pointer.
fn last(creator: u32, own: u16) -> Head {
    Head {
        creator,
        remover: 0,
        ctid: (0, own),
        infomask2: 0x8001,
        infomask: 0x2800,
    }
}

// A version amid a chain.
fn middle(creator: u32, remover: u32, by: u16) -> Head {
    Head {
        infomask2: 0xc001,
        infomask: 0x2000,
        ..replaced(creator, remover, by)
    }
}

// Puts a temperature with a number, each 40 bytes below the one before.
fn put(page: &mut Page, number: u16, head: Head) {
    if number < 100 {
        let offset = 8192 - 40 * number;
        put_pointer(page, number, normal(offset as u32, 33));
        put_version(page, offset, head, 1);
    }
}

fn is_unused(page: &Page, number: u16) -> bool {
    pointer_at(page, number) == Pointer::Unused
}

fn leads_to(page: &Page, number: u16, target: u16) -> bool {
    pointer_at(page, number) == Pointer::Redirect(target)
}

fn stands_at(page: &Page, number: u16, at: u16) -> bool {
    pointer_at(page, number)
        == Pointer::Normal {
            offset: at,
            len: 33,
        }
}

// 101 replaced version 1 by 2 and aborted; 102 then replaced it by 3.
#[test]
fn an_aborted_update_followed_by_another(rt: HostRuntime) -> Result<(), Fail> {
    let mut page = bare_page(36, 8072);
    put(&mut page, 1, replaced(100, 102, 3));
    put(&mut page, 2, last(101, 2));
    put(&mut page, 3, last(102, 3));
    let mut memory = [0; 16];
    // Not `?`, here and below: the check does not follow a `&mut` of the memory into a closure.
    let Ok(mut source) = TwoBitPages::new(&mut memory, 100) else {
        return Err(Fail::new("no source"));
    };
    end_all(&mut source, &[End::Commit, End::Abort, End::Commit]);
    let now = Active::new().snapshot(&source);
    assert!(rt; fetch(&mut source, &now, &page, 1) == Some(3));
    let pruned = prune(&mut source, 103, &mut page).ok_or("not lawful")?;
    assert!(rt; pruned.removed == 2 && pruned.made_dead == 0);
    assert!(rt; leads_to(&page, 1, 3) && is_unused(&page, 2) && stands_at(&page, 3, 8152));
    assert!(rt; PageHeader::read(&page).upper == 8152);
    assert!(rt; fetch(&mut source, &now, &page, 1) == Some(3));
    Ok(())
}

// The middle one of three updates aborted: 2 was replaced by 3 in vain, and then by 4.
#[test]
fn a_chain_with_an_aborted_middle(rt: HostRuntime) -> Result<(), Fail> {
    let mut page = bare_page(40, 8032);
    put(&mut page, 1, replaced(100, 101, 2));
    put(&mut page, 2, middle(101, 103, 4));
    put(&mut page, 3, last(102, 3));
    put(&mut page, 4, last(103, 4));
    let mut memory = [0; 16];
    let Ok(mut source) = TwoBitPages::new(&mut memory, 100) else {
        return Err(Fail::new("no source"));
    };
    end_all(&mut source, &[End::Commit, End::Commit, End::Abort]);
    let before = Active::new().snapshot(&source);
    end_all(&mut source, &[End::Commit]);
    let after = Active::new().snapshot(&source);
    assert!(rt; fetch(&mut source, &before, &page, 1) == Some(2));
    assert!(rt; fetch(&mut source, &after, &page, 1) == Some(4));
    let pruned = prune(&mut source, 103, &mut page).ok_or("not lawful")?;
    assert!(rt; pruned.removed == 2 && pruned.made_dead == 0);
    assert!(rt; leads_to(&page, 1, 2) && is_unused(&page, 3));
    assert!(rt; stands_at(&page, 2, 8152) && stands_at(&page, 4, 8112));
    assert!(rt; fetch(&mut source, &before, &page, 1) == Some(2));
    assert!(rt; fetch(&mut source, &after, &page, 1) == Some(4));
    Ok(())
}

// 101 began before 103 and ended after it, so that the version between them is dead before the one that it replaced.
#[test]
fn a_recently_dead_member_before_a_dead_one(rt: HostRuntime) -> Result<(), Fail> {
    let mut page = bare_page(36, 8072);
    put(&mut page, 1, replaced(100, 103, 2));
    put(&mut page, 2, middle(103, 101, 3));
    put(&mut page, 3, last(101, 3));
    let mut memory = [0; 16];
    let Ok(mut source) = TwoBitPages::new(&mut memory, 100) else {
        return Err(Fail::new("no source"));
    };
    end_all(&mut source, &[End::Commit; 4]);
    let pruned = prune(&mut source, 102, &mut page).ok_or("not lawful")?;
    assert!(rt; pruned.removed == 2 && pruned.made_dead == 0);
    assert!(rt; leads_to(&page, 1, 3) && is_unused(&page, 2) && stands_at(&page, 3, 8152));
    Ok(())
}

#[test]
fn own_updates_in_one_transaction(rt: HostRuntime) -> Result<(), Fail> {
    let mut page = bare_page(36, 8072);
    put(&mut page, 1, replaced(100, 100, 2));
    put(&mut page, 2, middle(100, 100, 3));
    put(&mut page, 3, last(100, 3));
    let mut memory = [0; 16];
    let Ok(mut source) = TwoBitPages::new(&mut memory, 100) else {
        return Err(Fail::new("no source"));
    };
    let before = Active::new().snapshot(&source);
    end_all(&mut source, &[End::Commit]);
    let after = Active::new().snapshot(&source);
    assert!(rt; fetch(&mut source, &before, &page, 1).is_none());
    assert!(rt; fetch(&mut source, &after, &page, 1) == Some(3));
    let pruned = prune(&mut source, 101, &mut page).ok_or("not lawful")?;
    assert!(rt; pruned.removed == 2 && pruned.made_dead == 0);
    assert!(rt; leads_to(&page, 1, 3) && is_unused(&page, 2) && stands_at(&page, 3, 8152));
    Ok(())
}

// 101 replaced version 1 by 2 and aborted. The pointer of 2 comes free, and the next row takes it.
#[test]
fn a_freeze_clears_an_aborted_remover(rt: HostRuntime) -> Result<(), Fail> {
    let mut page = bare_page(32, 8112);
    put(&mut page, 1, replaced(100, 101, 2));
    put(&mut page, 2, last(101, 2));
    let mut memory = [0; 16];
    let Ok(mut source) = TwoBitPages::new(&mut memory, 100) else {
        return Err(Fail::new("no source"));
    };
    end_all(&mut source, &[End::Commit, End::Abort]);
    let frozen = freeze(&mut source, 102, 102, &mut page).ok_or("not lawful")?;
    assert!(rt; frozen.pruned.removed == 1 && frozen.pruned.made_dead == 0);
    assert!(rt; frozen.marked.frozen == 1 && frozen.marked.cleared == 1);
    assert!(rt; is_unused(&page, 2));
    let version = version_of(&page, 1).ok_or("no version")?;
    assert!(rt; version.creator == 100 && version.remover == 0);
    assert!(rt; version.has(Mark::CreatorCommitted) && version.has(Mark::CreatorInvalid));
    assert!(rt; version.has(Mark::RemoverInvalid) && !version.has(Mark::HotUpdated));
    let row = [1, 7, 0, 0, 0, 0, 0, 0x48, 0x41];
    assert!(rt; place(&mut page, 102, Origin::Insert, &row) == Some(2));
    assert!(rt; stands_at(&page, 2, 8112) && PageHeader::read(&page).lower == 32);
    Ok(())
}

// A row that was deleted leaves a dead pointer, which stays a root and shows nothing.
#[test]
fn a_deleted_row_leaves_a_dead_pointer(rt: HostRuntime) -> Result<(), Fail> {
    let mut page = bare_page(28, 8152);
    put(
        &mut page,
        1,
        Head {
            remover: 101,
            infomask: 0,
            ..FRESH
        },
    );
    let mut memory = [0; 16];
    let Ok(mut source) = TwoBitPages::new(&mut memory, 100) else {
        return Err(Fail::new("no source"));
    };
    end_all(&mut source, &[End::Commit; 2]);
    let kept = prune(&mut source, 101, &mut page).ok_or("not lawful")?;
    assert!(rt; kept.removed == 0 && stands_at(&page, 1, 8152));
    let pruned = prune(&mut source, 102, &mut page).ok_or("not lawful")?;
    assert!(rt; pruned.removed == 1 && pruned.made_dead == 1);
    assert!(rt; pointer_at(&page, 1) == Pointer::Dead);
    assert!(rt; PageHeader::read(&page).upper == 8192);
    Ok(())
}
