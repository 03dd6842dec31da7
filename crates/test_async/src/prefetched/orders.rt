// What a fetch is given.
use crate::prefetched::devices::segment;
use crate::prefetched::same::{same, well};
use cmd_archive_get::GetFault;
use cmd_archive_get_async::fetch_order;
use cmd_types::Halt;

#[test]
fn an_order_names_a_segment(rt: HostRuntime) {
    let alloc = rt.alloc();
    let order = well(&rt, fetch_order(alloc, "000000010000000000000002"));
    same(&rt, order.segment, segment(2));
    for word in ["00000002.history", "000000010000000000000002.partial", ""] {
        let refused = fetch_order(alloc, word);
        let known = matches!(refused, Err(Halt::Refused(GetFault::SegmentName { .. })));
        same(&rt, known, true);
    }
}
