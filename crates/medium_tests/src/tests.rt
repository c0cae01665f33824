ghost use Rattle.std.specs.Prelude.{◌≡◌, IfOk, OnOk, true};
ghost use Rattle.operation_specs.specs.Reading.{IsWhole};
ghost use Rattle.operation_specs.specs.Reading as read;
ghost use Rattle.bus_specs.specs.Bus.{member_is};
ghost use Rattle.bus_ops.specs.Views.{item_of};
ghost use Rattle.medium_tests.specs.Runs.{at_first, behind_item, behind_cut, behind_request, behind_start, frame as frame_sent};

use bus_medium::{BusSetup, Medium};
use bus_ops::{Item, Op};
use can_frame::{Bytes, Frame, Kind, Numbers};
use error_script::ErrorList;
use log_lines::{LineList, print_line};
use std::alloc::{AllocError, Global};
use std::process::Abort;
use std::test::Fail;
use tick_time::BitTime;

// A CAN transmit whose stated length cuts off its last byte.
const CUT: [u8; 17] = [0x10, 0, 0, 0, 0x11, 0, 0, 0, 0x23, 1, 0, 0, 0, 0, 2, 0, 1];

// The format error that comes back.
const NOTICE: [u8; 27] = [
    1, 0, 0, 0, 27, 0, 0, 0, 17, 0, 0x10, 0, 0, 0, 0x11, 0, 0, 0, 0x23, 1, 0, 0, 0, 0, 2, 0, 1,
];

// A CAN transmit of the identifier 123 with the bytes 01 02.
const TRANSMIT: [u8; 18] = [
    0x10, 0, 0, 0, 0x12, 0, 0, 0, 0x23, 1, 0, 0, 0, 0, 2, 0, 1, 2,
];

// Its confirmation.
const CONFIRM: [u8; 12] = [0x20, 0, 0, 0, 12, 0, 0, 0, 0x23, 1, 0, 0];

// Two live nodes at 500 kbit/s, where a tick is a nanosecond.
#[tactic(auto, unfolding(crate::specs::Runs::at_first))]
fn two_nodes(alloc: Global) -> Result<Medium, AllocError>
    ensures { IfOk result (λ m. m ≡ at_first) }
{
    let nodes = Numbers::of(vec![in alloc; 0, 1]?);
    let setup = BusSetup {
        number: 0,
        rate: 500_000,
        fd_rate: None,
        nominal: BitTime::of_rate(500_000, 1_000_000_000).unwrap(),
        fast: None,
        members: nodes,
        errors: ErrorList::of(Vec::new(alloc)),
    };
    let mut medium = Medium::new(alloc, setup)?;
    medium.enter(0);
    medium.enter(1);
    Ok(medium)
}

// The text of these lines.
fn text_of(alloc: Global, lines: &LineList) -> Result<Vec<u8>, AllocError> {
    let mut text = Vec::new(alloc);
    for line in lines.as_slice() {
        text.extend_from_slice(&print_line(alloc, line)?)?;
    }
    Ok(text)
}

fn bad(alloc: Global, bytes: &[u8]) -> Result<Item, AllocError>
    ensures { IfOk result (λ item. item_of item ≡ read.Bad bytes.now) }
{
    Ok(Item::Bad(Bytes::of(bytes.to_vec(alloc)?)))
}

// Node 0 emits an item.
fn emitted(alloc: Global, medium: &mut Medium, item: Item) -> Result<Vec<u8>, AllocError>
    requires live { member_is (λ m. m.live) medium.old.members 0 ≡ true }
    requires next { medium.old.next ≡ 0 }
    requires whole { IsWhole (item_of item) }
    ensures { OnOk result (medium.new ≡ behind_item medium.old (item_of item)) }
{
    let line = medium.submit(alloc, 0, 0, item)?;
    print_line(alloc, &line)
}

// The first of two bad items.
#[tactic(auto, unfolding(crate::specs::Runs::behind_cut), using(crate::specs::Runs::live_at_first, crate::specs::Runs::next_at_first))]
fn cut_emitted(alloc: Global, medium: &mut Medium) -> Result<Vec<u8>, AllocError>
    requires { medium.old ≡ at_first }
    ensures { OnOk result (medium.new ≡ behind_cut) }
{
    let item = bad(alloc, &CUT)?;
    emitted(alloc, medium, item)
}

// Node 0 emits the bytes of a cut operation, which are read as two bad ones.
#[tactic(auto, using(crate::specs::Runs::live_behind_cut, crate::specs::Runs::next_behind_cut))]
fn two_bad(alloc: Global, medium: &mut Medium) -> Result<Vec<u8>, AllocError>
    requires { medium.old ≡ at_first }
{
    let mut text = cut_emitted(alloc, medium)?;
    let item = bad(alloc, &[2])?;
    let line = emitted(alloc, medium, item)?;
    text.extend_from_slice(&line)?;
    Ok(text)
}

#[test]
fn bad_operations_come_back_as_one_notice_of_the_first(rt: HostRuntime) -> Result<(), Fail> {
    let alloc = rt.alloc();
    let mut medium = two_nodes(alloc)?;
    let text = two_bad(alloc, &mut medium)?;
    let lines = b"0 0 bad 0 1000000011000000230100000000020001\n0 0 bad 0 02\n".as_slice();
    assert_eq!(rt; text.as_slice(), lines);

    assert!(rt; !medium.has_inbox(1_999, 0));
    assert!(rt; medium.has_inbox(2_000, 0));
    assert!(rt; !medium.has_inbox(2_000, 1));
    let (told, taken) = medium.take_inbox(alloc, 2_000, 0)?;
    let line = b"2000 0 told 0 format 1000000011000000230100000000020001\n".as_slice();
    assert_eq!(rt; text_of(alloc, &told)?.as_slice(), line);
    assert_eq!(rt; taken.as_slice(), NOTICE.as_slice());
    assert!(rt; !medium.has_inbox(2_000, 0));
    Ok(())
}

// The frame that node 0 sends.
fn frame(alloc: Global) -> Result<Frame, AllocError>
    ensures { IfOk result (λ f. f ≡ frame_sent) }
{
    let bytes = Bytes::of(vec![in alloc; 1, 2]?);
    Ok(Frame::new(0x123, false, Kind::Data, bytes).unwrap())
}

#[tactic(auto, unfolding(crate::specs::Runs::behind_request), using(crate::specs::Runs::live_at_first, crate::specs::Runs::next_at_first))]
fn requested(alloc: Global, medium: &mut Medium) -> Result<Vec<u8>, AllocError>
    requires { medium.old ≡ at_first }
    ensures { OnOk result (medium.new ≡ behind_request) }
{
    let frame = frame(alloc)?;
    emitted(alloc, medium, Item::Op(Op::Transmit(frame)))
}

#[tactic(auto, unfolding(crate::specs::Runs::behind_start), using(crate::specs::Runs::due_behind_request, crate::specs::Runs::attempts_behind_request))]
fn started(alloc: Global, medium: &mut Medium) -> Result<LineList, AllocError>
    requires { medium.old ≡ behind_request }
    ensures { OnOk result (medium.new ≡ behind_start) }
{
    medium.start(alloc, 0)
}

#[tactic(auto, using(crate::specs::Runs::due_behind_start))]
fn finished(alloc: Global, medium: &mut Medium) -> Result<LineList, AllocError>
    requires { medium.old ≡ behind_start }
{
    medium.finish(alloc, 128_000)
}

// Node 0 sends a frame, and it ends.
fn delivered(alloc: Global, medium: &mut Medium) -> Result<Vec<u8>, AllocError>
    requires { medium.old ≡ at_first }
{
    let mut text = requested(alloc, medium)?;
    let lines = started(alloc, medium)?;
    text.extend_from_slice(&text_of(alloc, &lines)?)?;
    let lines = finished(alloc, medium)?;
    text.extend_from_slice(&text_of(alloc, &lines)?)?;
    Ok(text)
}

#[test]
fn mail_is_read_without_taking_it_and_falls_with_its_node(rt: HostRuntime) -> Result<(), Fail> {
    let alloc = rt.alloc();
    let mut medium = two_nodes(alloc)?;
    let text = delivered(alloc, &mut medium)?;
    let lines =
        b"0 0 req 0 123#0102\n0 0 start 0 123#0102\n128000 0 done 0 123#0102 to 1\n".as_slice();
    assert_eq!(rt; text.as_slice(), lines);

    assert_eq!(rt;
        medium.inbox(alloc, 128_000, 0)?.as_slice(),
        CONFIRM.as_slice()
    );
    assert_eq!(rt;
        medium.inbox(alloc, 128_000, 1)?.as_slice(),
        TRANSMIT.as_slice()
    );
    let (told, taken) = medium.take_inbox(alloc, 128_000, 0)?;
    assert!(rt; told.as_slice().is_empty());
    assert_eq!(rt; taken.as_slice(), CONFIRM.as_slice());
    assert!(rt; !medium.has_inbox(128_000, 0));
    assert!(rt; medium.has_inbox(128_000, 1));
    medium.leave(1);
    assert!(rt; !medium.has_inbox(128_000, 1));
    assert!(rt; medium.inbox(alloc, 128_000, 1)?.as_slice().is_empty());
    Ok(())
}
