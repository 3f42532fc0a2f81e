use vg_places::{agree_at_each_place, fill_at_each_place, tabulate_at_each_place};

#[test]
fn laws_stand_at_concrete_types() {
    agree_at_each_place::<u8>();
    agree_at_each_place::<bool>();
    tabulate_at_each_place::<u8>();
    tabulate_at_each_place::<bool>();
    fill_at_each_place();
}
