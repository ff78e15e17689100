use lists::Memory;
use schema_reader::{SchemaFault, read_schema, write_schema};
use std::alloc::{AllocError, Global};
use std::test::Fail;

const SCHEMAS: [&str; 5] = [
    "class State\nfield players map Player\nclass Player\nfield name string\nfield gold number view\nroot State\n",
    "class view\nfield a boolean view 0\nfield view array int8 view 255\nclass Z_9 : view\nfield map view\nfield c map view view\nfield d set uint8\nfield e int16\nfield f uint16\nfield g int32\nfield h uint32 view 7\nroot Z_9\n",
    "class float32\nfield float64 number\nroot float32\n",
    "class A\nfield x B\nclass B\nroot B\n",
    "class A\nclass B : A\nclass C : B\nfield x set A\nroot C\n",
];

/// The fault of a text that is no schema's.
fn fault_of(alloc: Global, text: &[u8]) -> Option<SchemaFault> {
    read_schema(alloc, text).err()
}

/// The text of the schema that was read of a text.
fn text_again(alloc: Global, text: &[u8]) -> Result<Option<Vec<u8>>, Memory> {
    match read_schema(alloc, text) {
        Ok(schema) => {
            let bytes = write_schema(alloc, &schema)?;
            Ok(Some(Vec::from_slice(alloc, bytes.as_slice())?))
        }
        Err(_) => Ok(None),
    }
}

#[test]
fn reads_what_is_written(rt: HostRuntime) -> Result<(), Fail> {
    for text in SCHEMAS {
        let again = text_again(rt.alloc(), text.as_bytes())?;
        assert!(rt;
            again.is_some_and(|again| again.as_slice() == text.as_bytes()),
            "{text}"
        );
    }
    Ok(())
}

#[test]
fn finds_the_first_fault(rt: HostRuntime) {
    for (text, fault) in [
        ("", SchemaFault::NoRoot(1)),
        ("class A\n", SchemaFault::NoRoot(2)),
        ("class A\nroot A", SchemaFault::UnknownWord(2)),
        ("class A\r\nroot A\r\n", SchemaFault::UnknownWord(1)),
        ("class\tA\nroot A\n", SchemaFault::UnknownWord(1)),
        ("class  A\nroot A\n", SchemaFault::UnknownWord(1)),
        ("\nclass A\nroot A\n", SchemaFault::UnknownWord(1)),
        (
            "field x number\nclass A\nroot A\n",
            SchemaFault::UnknownWord(1),
        ),
        ("class A\nroot A\nclass B\n", SchemaFault::UnknownWord(3)),
        ("class A\nroot A\nroot A\n", SchemaFault::UnknownWord(3)),
        ("class A\nclass A\nroot A\n", SchemaFault::TwiceClass(2)),
        ("class A\nclass A : B\n", SchemaFault::TwiceClass(2)),
        (
            "class A : B\nclass B\nroot A\n",
            SchemaFault::ParentLater(1),
        ),
        ("class A : A\nroot A\n", SchemaFault::ParentLater(1)),
        (
            "class A\nfield x number\nfield x string\n",
            SchemaFault::TwiceField(3),
        ),
        (
            "class A\nfield x number\nclass B : A\nfield y number\nfield x string\n",
            SchemaFault::TwiceField(5),
        ),
        ("class A\nfield x float32\n", SchemaFault::FractionalKind(2)),
        (
            "class A\nfield x map float64 view\n",
            SchemaFault::FractionalKind(2),
        ),
        (
            "class A\nfield x float32 view 256\n",
            SchemaFault::FractionalKind(2),
        ),
        ("class A\nfield x A view 256\n", SchemaFault::BadTag(2)),
        ("class A\nfield x A view -1\n", SchemaFault::BadTag(2)),
        (
            "class A\nfield x A view 99999999999999999999\n",
            SchemaFault::BadTag(2),
        ),
        (
            "class A\nfield x number\nfield x number view 256\n",
            SchemaFault::BadTag(3),
        ),
        (
            "class A\nfield x number\nfield x float64\n",
            SchemaFault::FractionalKind(3),
        ),
        (
            "class A\nfield x B\nfield y C\nroot D\n",
            SchemaFault::UnknownClass(2),
        ),
        ("class A\nroot D\n", SchemaFault::UnknownClass(2)),
        ("class A\nfield x B\n", SchemaFault::UnknownClass(2)),
        (
            "class A\nfield x B\nclass B\nroot A\nx\n",
            SchemaFault::UnknownWord(5),
        ),
    ] {
        assert_eq!(rt;
            fault_of(rt.alloc(), text.as_bytes()),
            Some(fault),
            "{text}"
        );
    }
}

#[test]
fn knows_lines_of_no_form(rt: HostRuntime) -> Result<(), Fail> {
    for line in [
        "",
        "klass B",
        "class",
        "class B :",
        "class B : ",
        "class B A",
        "class map",
        "class number",
        "class b-c",
        "class  B",
        "class B : A A",
        "field x",
        "field x map",
        "field x map map",
        "field x array array A",
        "field x A view 01",
        "field x A view -0",
        "field x A view +1",
        "field x A view x",
        "field x A view 1 2",
        "field x set A view 1 2 3 4",
        "field x A 1",
        "field string A",
        "field x A ",
        "root",
        "root A A",
        "root map",
    ] {
        let text = format!(in rt.alloc(); "class A\n{line}\nroot A\n")?;
        assert_eq!(rt;
            fault_of(rt.alloc(), text.as_bytes()),
            Some(SchemaFault::UnknownWord(2)),
            "{line}"
        );
    }
    Ok(())
}

/// A class of so many fields, one behind another, and a child of so many, with the root.
fn many_fields(alloc: Global, count: u32, more: u32) -> Result<String, AllocError> {
    let mut text = String::from_str(alloc, "class A\n")?;
    for number in 0..count {
        let line = format!(in alloc; "field a{number} number\n")?;
        text.push_str(line.as_str())?;
    }
    text.push_str("class B : A\n")?;
    for number in 0..more {
        let line = format!(in alloc; "field b{number} map A view\n")?;
        text.push_str(line.as_str())?;
    }
    text.push_str("root B\n")?;
    Ok(text)
}

#[test]
fn takes_63_fields(rt: HostRuntime) -> Result<(), Fail> {
    for (count, more, fault) in [
        (63, 0, None),
        (0, 63, None),
        (60, 3, None),
        (64, 0, Some(SchemaFault::TooManyFields(65))),
        (60, 4, Some(SchemaFault::TooManyFields(66))),
        (0, 64, Some(SchemaFault::TooManyFields(66))),
    ] {
        let text = many_fields(rt.alloc(), count, more)?;
        assert_eq!(rt;
            fault_of(rt.alloc(), text.as_bytes()),
            fault,
            "{count} {more}"
        );
    }
    Ok(())
}

/// So many classes, with the root.
fn many_classes(alloc: Global, count: u32) -> Result<String, AllocError> {
    let mut text = String::new(alloc);
    for number in 0..count {
        let line = format!(in alloc; "class c{number}\n")?;
        text.push_str(line.as_str())?;
    }
    text.push_str("root c0\n")?;
    Ok(text)
}

#[test]
fn takes_256_classes(rt: HostRuntime) -> Result<(), Fail> {
    for (count, fault) in [
        (256, None),
        (257, Some(SchemaFault::TooManyClasses(257))),
        (300, Some(SchemaFault::TooManyClasses(257))),
    ] {
        let text = many_classes(rt.alloc(), count)?;
        assert_eq!(rt; fault_of(rt.alloc(), text.as_bytes()), fault, "{count}");
    }
    Ok(())
}

#[test]
fn takes_names_of_64_characters(rt: HostRuntime) -> Result<(), Fail> {
    let most = "0123456789abcdefghijklmnopqrstuvwxyzABCDEFGHIJKLMNOPQRSTUVWXYZ_0";
    for (class, field, fault) in [
        (most, most, None),
        (
            "0123456789abcdefghijklmnopqrstuvwxyzABCDEFGHIJKLMNOPQRSTUVWXYZ_01",
            most,
            Some(SchemaFault::UnknownWord(1)),
        ),
        (
            most,
            "0123456789abcdefghijklmnopqrstuvwxyzABCDEFGHIJKLMNOPQRSTUVWXYZ_01",
            Some(SchemaFault::UnknownWord(2)),
        ),
    ] {
        let text = format!(in rt.alloc(); "class {class}\nfield {field} {class}\nroot {class}\n")?;
        assert_eq!(rt; fault_of(rt.alloc(), text.as_bytes()), fault);
    }
    Ok(())
}

/// As many classes and fields as there may be, each field of a class that is declared elsewhere.
fn largest(alloc: Global) -> Result<String, AllocError> {
    let mut text = String::new(alloc);
    for class in 0..256u32 {
        let line = format!(in alloc; "class c{class}\n")?;
        text.push_str(line.as_str())?;
        for field in 0..63u32 {
            let line = format!(in alloc; "field f{field} map c{} view\n", 255 - class)?;
            text.push_str(line.as_str())?;
        }
    }
    text.push_str("root c255\n")?;
    Ok(text)
}

#[test]
fn reads_the_largest_schema(rt: HostRuntime) -> Result<(), Fail> {
    let text = largest(rt.alloc())?;
    let again = text_again(rt.alloc(), text.as_bytes())?;
    assert!(rt; again.is_some_and(|again| again.as_slice() == text.as_bytes()));
    Ok(())
}
