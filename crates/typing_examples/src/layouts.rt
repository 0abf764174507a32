use c_layout::{TypeFault, layout};
use c_types::Cells;
use rvt_num::Kind;
use rvt_tree::{CType, Name, Pointee, StructDef, Structs};
use sqlite_items::Items;
use std::alloc::Global;
use std::test::Fail;

fn array_of(alloc: Global, element: CType, count: u32) -> Result<CType, TypeFault> {
    Ok(CType::Array(Box::new(alloc, element)?, count))
}

fn no_structs(alloc: Global) -> Structs {
    Structs {
        list: Items::new(alloc),
    }
}

fn push_field(
    alloc: Global,
    fields: &mut Items<(Name, CType)>,
    ty: CType,
) -> Result<(), TypeFault> {
    let name = Name::new(alloc, b"x")?;
    fields.push((name, ty))?;
    Ok(())
}

fn push_struct(
    alloc: Global,
    structs: &mut Structs,
    fields: Items<(Name, CType)>,
    complete: bool,
) -> Result<(), TypeFault> {
    let tag = Name::new(alloc, b"S")?;
    structs.list.push(StructDef {
        tag,
        tagged: true,
        complete,
        fields,
    })?;
    Ok(())
}

/// A struct of one field.
fn push_holder(alloc: Global, structs: &mut Structs, ty: CType) -> Result<(), TypeFault> {
    let mut fields = Items::new(alloc);
    push_field(alloc, &mut fields, ty)?;
    push_struct(alloc, structs, fields, true)
}

fn fault_of(answer: Result<Cells, TypeFault>) -> Option<TypeFault> {
    match answer {
        Ok(_) => None,
        Err(fault) => Some(fault),
    }
}

#[test]
fn a_word_and_a_pointer(rt: HostRuntime) -> Result<(), Fail> {
    let alloc = rt.alloc();
    let structs = no_structs(alloc);
    let word = layout(alloc, &CType::Word(Kind::U8), &structs)?;
    assert_eq!(rt; word.cells.len(), 1);
    assert_eq!(rt; word.starts.len(), 1);
    assert!(rt; word.stands(&CType::Word(Kind::U8), 0));
    let ty = CType::Pointer(Pointee::Struct(7), true);
    let pointer = layout(alloc, &ty, &structs)?;
    assert!(rt; pointer.cells[0].is_none());
    assert!(rt; pointer.stands(&ty, 0));
    assert!(rt; !pointer.stands(&CType::Pointer(Pointee::Struct(7), false), 0));
    Ok(())
}

// typedef struct { uint8_t buf[16]; uint8_t head; uint8_t tail; } Queue;
#[test]
fn a_queue(rt: HostRuntime) -> Result<(), Fail> {
    let alloc = rt.alloc();
    let mut structs = no_structs(alloc);
    let mut fields = Items::new(alloc);
    let buf = array_of(alloc, CType::Word(Kind::U8), 16)?;
    push_field(alloc, &mut fields, buf)?;
    push_field(alloc, &mut fields, CType::Word(Kind::U8))?;
    push_field(alloc, &mut fields, CType::Word(Kind::U8))?;
    push_struct(alloc, &mut structs, fields, true)?;
    let it = layout(alloc, &CType::Struct(0), &structs)?;
    assert_eq!(rt; it.cells.len(), 18);
    assert_eq!(rt; it.starts.len(), 20);
    assert!(rt; it.stands(&CType::Struct(0), 0));
    assert!(rt; !it.stands(&CType::Struct(0), 1));
    let buf = array_of(alloc, CType::Word(Kind::U8), 16)?;
    assert!(rt; it.stands(&buf, 0));
    assert!(rt; !it.stands(&buf, 16));
    assert!(rt; it.stands(&CType::Word(Kind::U8), 0));
    assert!(rt; it.stands(&CType::Word(Kind::U8), 16));
    assert!(rt; it.stands(&CType::Word(Kind::U8), 17));
    assert!(rt; !it.stands(&CType::Word(Kind::U8), 18));
    Ok(())
}

// struct Pair { int x; int *p; }; struct Both { struct Pair a[2]; unsigned char c; }; the later one has the lower number.
#[test]
fn structs_in_an_array_in_a_struct(rt: HostRuntime) -> Result<(), Fail> {
    let alloc = rt.alloc();
    let mut structs = no_structs(alloc);
    let mut fields = Items::new(alloc);
    let pairs = array_of(alloc, CType::Struct(1), 2)?;
    push_field(alloc, &mut fields, pairs)?;
    push_field(alloc, &mut fields, CType::Word(Kind::U8))?;
    push_struct(alloc, &mut structs, fields, true)?;
    let mut fields = Items::new(alloc);
    push_field(alloc, &mut fields, CType::Word(Kind::I32))?;
    push_field(
        alloc,
        &mut fields,
        CType::Pointer(Pointee::Word(Kind::I32), false),
    )?;
    push_struct(alloc, &mut structs, fields, true)?;
    let it = layout(alloc, &CType::Struct(0), &structs)?;
    assert_eq!(rt; it.cells.len(), 5);
    assert!(rt; it.cells[0] == Some(Kind::I32));
    assert!(rt; it.cells[1].is_none());
    assert!(rt; it.cells[2] == Some(Kind::I32));
    assert!(rt; it.cells[3].is_none());
    assert!(rt; it.cells[4] == Some(Kind::U8));
    let places: [u32; 9] = [0, 0, 0, 0, 1, 2, 2, 3, 4];
    assert_eq!(rt; it.starts.len(), 9);
    for (start, place) in it.starts.iter().zip(places.iter()) {
        assert_eq!(rt; start.1, *place);
    }
    assert!(rt; it.stands(&CType::Struct(1), 0));
    assert!(rt; !it.stands(&CType::Struct(1), 1));
    assert!(rt; it.stands(&CType::Struct(1), 2));
    assert!(rt; it.stands(&CType::Word(Kind::U8), 4));
    Ok(())
}

#[test]
fn at_most_4096_cells(rt: HostRuntime) -> Result<(), Fail> {
    let alloc = rt.alloc();
    let structs = no_structs(alloc);
    let row = array_of(alloc, CType::Word(Kind::I16), 64)?;
    let square = array_of(alloc, row, 64)?;
    let it = layout(alloc, &square, &structs)?;
    assert_eq!(rt; it.cells.len(), 4096);
    assert_eq!(rt; it.starts.len(), 4161);
    let long = array_of(alloc, CType::Word(Kind::I16), 4097)?;
    assert!(rt; fault_of(layout(alloc, &long, &structs)) == Some(TypeFault::TooManyCells));
    let none = array_of(alloc, CType::Word(Kind::I16), 0)?;
    let it = layout(alloc, &none, &structs)?;
    assert_eq!(rt; it.cells.len(), 0);
    assert_eq!(rt; it.starts.len(), 1);
    assert!(rt; TypeFault::Incomplete.cause() == Some(21));
    assert!(rt; TypeFault::TooManyCells.cause() == Some(22));
    Ok(())
}

// Structs 0 and 1 hold each other, 2 holds itself in an array of no elements, 3 is only declared, and 4 has too many cells before it.
#[test]
fn incomplete_types(rt: HostRuntime) -> Result<(), Fail> {
    let alloc = rt.alloc();
    let mut structs = no_structs(alloc);
    push_holder(alloc, &mut structs, CType::Struct(1))?;
    push_holder(alloc, &mut structs, CType::Struct(0))?;
    let itself = array_of(alloc, CType::Struct(2), 0)?;
    push_holder(alloc, &mut structs, itself)?;
    push_struct(alloc, &mut structs, Items::new(alloc), false)?;
    let mut fields = Items::new(alloc);
    let long = array_of(alloc, CType::Word(Kind::U64), 5000)?;
    push_field(alloc, &mut fields, long)?;
    push_field(alloc, &mut fields, CType::Struct(3))?;
    push_struct(alloc, &mut structs, fields, true)?;
    for number in 0u32..6 {
        let fault = fault_of(layout(alloc, &CType::Struct(number), &structs));
        assert!(rt; fault == Some(TypeFault::Incomplete));
    }
    let pointer = CType::Pointer(Pointee::Struct(3), false);
    let it = layout(alloc, &pointer, &structs)?;
    assert_eq!(rt; it.cells.len(), 1);
    Ok(())
}

// Each of 1,000 structs holds two of the one before it.
#[test]
fn a_chain_of_pairs(rt: HostRuntime) -> Result<(), Fail> {
    let alloc = rt.alloc();
    let mut structs = no_structs(alloc);
    push_holder(alloc, &mut structs, CType::Word(Kind::I32))?;
    for number in 1u32..1000 {
        let two = array_of(alloc, CType::Struct(number - 1), 2)?;
        push_holder(alloc, &mut structs, two)?;
    }
    let it = layout(alloc, &CType::Struct(12), &structs)?;
    assert_eq!(rt; it.cells.len(), 4096);
    assert!(rt; it.stands(&CType::Struct(11), 2048));
    assert!(rt;
        fault_of(layout(alloc, &CType::Struct(13), &structs)) == Some(TypeFault::TooManyCells)
    );
    assert!(rt;
        fault_of(layout(alloc, &CType::Struct(999), &structs)) == Some(TypeFault::TooManyCells)
    );
    Ok(())
}
