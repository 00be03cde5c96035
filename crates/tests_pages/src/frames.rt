// Call lists with the recency list worked out by hand, at the least and the greatest number of
// frames.
ghost use Rattle.std.specs.Prelude.{◌≡◌, ◌<◌, ◌≤◌, length};

use gx_frames::{Call, Frames};
use std::process::Abort;
use std::test::Fail;

const PAGES: u32 = 4000;

/// The first of the pages that only fill free frames.
const FILLERS: u32 = 1500;

/// A call with the page that it is for, and the byte that a written page is filled with.
#[derive(Clone, Copy)]
enum Step {
    Get(u32),
    Write(u32, u8),
    Admit(u32, u8),
    Evict(u32),
    Clean(u32),
    Forget,
}

/// Carries out a step where the pool allows it, and says whether it did.
fn take(frames: &mut Frames, step: Step) -> bool
    requires { frames.old.pages ≡ PAGES }
    ensures { frames.new.pages ≡ PAGES }
{
    match step {
        Step::Get(page) if page < PAGES => frames.get(page).is_some(),
        Step::Write(page, fill) if page < PAGES => write(frames, page, fill),
        Step::Admit(page, fill)
            if page < PAGES && !frames.is_resident(page) && frames.victim().is_none() => {
            frames.admit(page).fill(fill);
            true
        }
        Step::Evict(page) if page < PAGES && frames.is_resident(page) => {
            frames.evict(page);
            true
        }
        Step::Clean(page) if page < PAGES && frames.is_resident(page) => {
            frames.clean(page);
            true
        }
        Step::Forget => {
            frames.forget_changes();
            true
        }
        _ => false,
    }
}

/// Carries out steps, the first one first, and says whether the pool allowed each.
fn take_all(frames: &mut Frames, steps: &[Step]) -> bool
    requires { frames.old.pages ≡ PAGES }
    ensures { frames.new.pages ≡ PAGES }
{
    let mut all = true;
    for step in steps {
        all = take(frames, *step) && all;
    }
    all
}

/// Fills the free frames, and then evicts all pages of the list, the last one first.
fn expect_order(rt: &impl Abort, frames: &mut Frames, count: u32, order: &[(u32, bool, u8)])
    requires pages { frames.old.pages ≡ PAGES }
    requires few { count ≤ 1024 }
    requires short { length order.now ≤ 1024 }
{
    for more in (order.len() as u32)..count {
        assert!(rt; take(frames, Step::Admit(FILLERS + more, 0)));
    }
    for place in 0..order.len() {
        let (page, changed, fill) = order[order.len() - 1 - place];
        assert!(rt; frames.victim() == Some((page, changed)));
        assert!(rt; holds(frames, page, fill));
        assert!(rt; take(frames, Step::Evict(page)));
        assert!(rt; take(frames, Step::Admit(FILLERS + count + place as u32, 0)));
    }
}

/// Whether the page is resident and each of its bytes is this one.
fn holds(frames: &mut Frames, page: u32, fill: u8) -> bool
    requires { frames.old.pages ≡ PAGES }
    ensures { frames.new.pages ≡ PAGES }
{
    if page >= PAGES {
        return false;
    }
    match frames.get(page) {
        Some(bytes) => bytes.iter().all(|byte| *byte == fill),
        None => false,
    }
}

#[test]
fn keeps_the_recency_list(rt: HostRuntime) -> Result<(), Fail> {
    use Step::{Admit, Clean, Evict, Forget, Get, Write};
    let last = PAGES - 1;
    let rows: [(&[Step], &[(u32, bool, u8)]); 8] = [
        (&[], &[]),
        (
            &[Admit(0, 1), Admit(last, 2)],
            &[(last, false, 2), (0, false, 1)],
        ),
        (
            &[Admit(0, 1), Admit(1, 2), Admit(2, 3), Get(0), Get(1)],
            &[(1, false, 2), (0, false, 1), (2, false, 3)],
        ),
        (
            &[Admit(5, 1), Admit(6, 2), Admit(7, 3), Write(6, 9), Get(6)],
            &[(6, true, 9), (7, false, 3), (5, false, 1)],
        ),
        (
            &[Admit(5, 1), Write(5, 4), Admit(6, 2), Clean(5)],
            &[(6, false, 2), (5, false, 4)],
        ),
        (
            &[
                Admit(1, 1),
                Admit(2, 2),
                Admit(3, 3),
                Evict(2),
                Admit(4, 4),
                Get(1),
            ],
            &[(1, false, 1), (4, false, 4), (3, false, 3)],
        ),
        (
            &[
                Admit(1, 1),
                Admit(2, 2),
                Write(1, 5),
                Admit(3, 3),
                Write(2, 6),
                Admit(4, 4),
                Forget,
            ],
            &[(4, false, 4), (3, false, 3)],
        ),
        (
            &[
                Admit(0, 0),
                Admit(1, 1),
                Admit(2, 2),
                Admit(3, 3),
                Admit(4, 4),
                Admit(5, 5),
                Admit(6, 6),
                Admit(7, 7),
                Evict(0),
                Admit(last, 8),
                Get(3),
                Write(1, 9),
                Get(1),
            ],
            &[
                (1, true, 9),
                (3, false, 3),
                (last, false, 8),
                (7, false, 7),
                (6, false, 6),
                (5, false, 5),
                (4, false, 4),
                (2, false, 2),
            ],
        ),
    ];
    for (calls, order) in rows {
        for count in [8, 1024] {
            let mut frames = Frames::make(rt.alloc(), count, PAGES)?;
            assert!(rt; take_all(&mut frames, calls));
            expect_order(&rt, &mut frames, count, order);
        }
    }
    Ok(())
}

#[test]
fn finds_the_changed_pages(rt: HostRuntime) -> Result<(), Fail> {
    let last = PAGES - 1;
    let mut frames = Frames::make(rt.alloc(), 8, PAGES)?;
    assert!(rt; frames.next_changed(0) == None);
    let steps = [
        Step::Admit(last, 1),
        Step::Admit(3, 2),
        Step::Admit(700, 3),
        Step::Write(700, 4),
    ];
    assert!(rt; take_all(&mut frames, &steps));
    assert!(rt; write(&mut frames, 3, 9));
    for (from, next) in [
        (0, Some(3)),
        (3, Some(3)),
        (4, Some(700)),
        (700, Some(700)),
        (701, None),
        (u32::MAX, None),
    ] {
        assert!(rt; frames.next_changed(from) == next);
    }
    Ok(())
}

/// Fills a page with a byte, and says whether it was resident.
fn write(frames: &mut Frames, page: u32, fill: u8) -> bool
    requires { page < frames.old.pages }
    ensures { frames.new.pages ≡ frames.old.pages }
{
    match frames.get_mut(page) {
        Some(bytes) => {
            bytes.fill(fill);
            true
        }
        None => false,
    }
}

#[test]
fn carries_out_calls(rt: HostRuntime) -> Result<(), Fail> {
    let bytes = [7; 4096];
    let mut frames = Frames::make(rt.alloc(), 8, PAGES)?;
    assert!(rt; take(&mut frames, Step::Admit(1, 1)));
    assert!(rt; take(&mut frames, Step::Admit(2, 2)));
    frames.carry_out_all(&[Call::Get(1), Call::Write(2, &bytes), Call::Get(1)]);
    assert!(rt; frames.next_changed(0) == Some(2));
    frames.carry_out(Call::ForgetChanges);
    expect_order(&rt, &mut frames, 8, &[(1, false, 1)]);
    Ok(())
}
