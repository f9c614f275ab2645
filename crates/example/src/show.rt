//! The classes of a program and the instruction count of each of their methods, as text.
use bumpalo::Bump;
use dex_base::Fault;
use dex_program::{Method, Program};
use std::alloc::Global;

/// Reads a .dex file and returns a line for each class and each of its methods.
///
/// ```
/// use example::shown;
///
/// assert!(rt; shown(alloc, b"no file").is_err()); // as `dex_file::read`
/// ```
pub fn shown(alloc: Global, file: &[u8]) -> Result<String, Fault> {
    let arena = Bump::new(alloc);
    show(alloc, &dex_file::read(alloc, &arena, file)?)
}

fn show(alloc: Global, program: &Program<'_>) -> Result<String, Fault> {
    let mut shown = String::new(alloc);
    for class in program.classes {
        writeln!(shown, "{}", class.ty)?;
        for method in class.directs.iter().chain(class.virtuals) {
            put_method(&mut shown, method)?;
        }
    }
    Ok(shown)
}

fn put_method(shown: &mut String, method: &Method<'_>) -> Result<(), Fault> {
    let count = match method.code {
        Some(code) => code.insns.len(),
        None => 0,
    };
    let (name, proto) = (method.name, method.proto);
    writeln!(shown, "  {name}{proto}: {count} instructions")?;
    Ok(())
}
