use crate::{Block, Plan, field_value, pair_place, product_rows, product_word, row_of_fields};
use fr_alphabet::{Alphabet, Perm};
use fr_machine::Row;
use std::test::Fail;

#[test]
fn a_small_table_has_its_words_in_order(rt: HostRuntime) -> Result<(), Fail> {
    let Some(a) = Alphabet::new(2) else {
        panic!(rt; "two letters are an alphabet")
    };
    let plan = Plan::new(a, 4);
    assert_eq!(rt; plan.cells, 8);
    assert_eq!(rt; plan.field_word(0, 0), 1);
    assert_eq!(rt; plan.field_word(3, 2), 12);
    assert_eq!(rt; plan.link_word(0), 13);
    assert_eq!(rt; plan.cell_word(0), 17);
    assert_eq!(rt; plan.cache_word(0), 25);
    assert_eq!(rt; plan.words(), 65561);
    Ok(())
}

#[test]
fn packs_are_the_numbers_of_the_layout(rt: HostRuntime) -> Result<(), Fail> {
    let block = Block { start: 2, size: 2 };
    assert_eq!(rt; block.pack(2), 2098177);
    assert_eq!(rt; Block::of_pack(2098177), (block, 2));
    let word = product_word(1, 0, 3);
    assert_eq!(rt; word, 3298534883330);
    assert_eq!(rt; product_rows(word), (1, 0, 3));
    assert_eq!(rt; pair_place(3, 1), 94);
    Ok(())
}

#[test]
fn a_row_is_spelled_in_its_fields(rt: HostRuntime) -> Result<(), Fail> {
    let Some(a) = Alphabet::new(2) else {
        panic!(rt; "two letters are an alphabet")
    };
    let Some(swap) = Perm::of_images(a, &[2, 1]) else {
        panic!(rt; "a permutation")
    };
    let row = Row {
        perm: swap,
        next: [1, 0, 0, 0, 0, 0, 0, 0],
    };
    assert_eq!(rt; field_value(&row, 4, 0), 2);
    assert_eq!(rt; field_value(&row, 4, 1), 6);
    assert_eq!(rt; field_value(&row, 4, 2), 5);
    let block = Block { start: 4, size: 2 };
    assert_eq!(rt; row_of_fields(a, block, &[2, 6, 5, 0, 0, 0, 0, 0, 0]), row);
    Ok(())
}
