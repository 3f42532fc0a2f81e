use vg_formats::{Format, MemEntry, Rect};

fn may_be_sent_and_shared<T: Send + Sync>() {}

#[test]
fn formats_and_rectangles_may_be_sent_and_shared() {
    may_be_sent_and_shared::<MemEntry>();
    may_be_sent_and_shared::<Rect>();
    may_be_sent_and_shared::<Format>();
}
