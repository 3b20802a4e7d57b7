// Each call that makes a part of a book, once.
use book::book::Book;
use book::table::Table;
use ir::limits::MAX_SEGMENTS;
use rows::operation::sizes::SegmentSizes;
use rows::region::Region;
use std::test::Fail;

#[test]
fn table_is_made(rt: HostRuntime) -> Result<(), Fail> {
    let mut table = Table::<Region, 3>::new(rt.alloc())?;
    assert_eq!(rt; table.rows.len(), 0);
    assert_eq!(rt; table.spares.len(), 3);
    assert_eq!(rt; table.add(), 0);
    Ok(())
}

#[test]
fn sizes_are_absent_until_set(rt: HostRuntime) -> Result<(), Fail> {
    let mut sizes = SegmentSizes::absent(rt.alloc())?;
    assert!(rt; sizes.get().is_none());
    sizes.set(&[7; MAX_SEGMENTS]);
    assert_eq!(rt; sizes.get().map_or(0, |list| list.len()), MAX_SEGMENTS);
    sizes.unset();
    assert!(rt; sizes.get().is_none());
    Ok(())
}

#[test]
fn book_is_made(rt: HostRuntime) {
    let types = Book::new(rt.alloc(), &[10, 20]).map_or(0, |book| book.num_types());
    assert_eq!(rt; types, 2);
}
