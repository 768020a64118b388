//! Want of memory as a refusal of a format.

use std::alloc::AllocError;
use std::test::Fail;
use storage_api::{ReadRefusal, WriteRefusal};

/// What a call with this error gives where memory is wanted.
fn from_memory<E: From<AllocError>>() -> Result<(), E> {
    Err(AllocError)?;
    Ok(())
}

#[test]
fn want_of_memory_is_handed_on(rt: HostRuntime) -> Result<(), Fail> {
    let read: Result<(), ReadRefusal> = from_memory();
    assert_eq!(rt; read, Err(ReadRefusal::Memory));
    let written: Result<(), WriteRefusal> = from_memory();
    assert!(rt; matches!(written, Err(WriteRefusal::Memory)));
    Ok(())
}
