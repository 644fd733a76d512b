//! What the running transaction did with a block, which decides how a commit writes it, and the roles of
//! many blocks. How the roles change with each call is described in specs/Running.

ghost use Rattle.std.specs.Prelude.{◌≡◌, length, replicate, IfOk};
ghost use Rattle.engine_blocks.specs.declared.role.Role.TheVariants.{Untouched};
ghost use Rattle.engine_blocks.specs.Running.{put_role, filled};

use base_types::{Class, NoMemory};
use std::alloc::Global;

/// What the running transaction has of a block.
#[derive(Clone, Copy)]
pub enum Role {
    /// Nothing: it wasn't changed, or it was freed.
    Untouched,
    /// It was changed, and wasn't taken: a payload of the commit.
    Changed,
    /// It was taken, and wasn't put since.
    Bare,
    /// It was taken, and metadata was put into it: a payload of the commit.
    NewMeta,
    /// It was taken, and content of a file was put into it: the commit writes it in place.
    Fresh,
}

/// What becomes of a block's role by a put.
pub(crate) fn put_role(class: Class, role: Role) -> Role
    ensures { result ≡ put_role class role }
{
    match role {
        Role::Untouched => Role::Changed,
        Role::Changed => Role::Changed,
        Role::Bare => filled(class),
        Role::NewMeta => filled(class),
        Role::Fresh => filled(class),
    }
}

fn filled(class: Class) -> Role
    ensures { result ≡ filled class }
{
    match class {
        Class::Meta => Role::NewMeta,
        Class::Content => Role::Fresh,
    }
}

/// Makes each role that of a block with which nothing was done.
pub(crate) fn forget(roles: &mut [Role])
    ensures { roles.new ≡ replicate (length roles.old) Untouched }
{
    roles.fill(Role::Untouched);
}

/// The roles of so many blocks with which nothing was done.
///
/// # Errors
/// Out of memory.
pub(crate) fn untouched_roles(alloc: Global, n: u32) -> Result<Vec<Role>, NoMemory>
    ensures { IfOk result (λ roles. roles.items ≡ replicate n Untouched) }
{
    let roles = vec![in alloc; Role::Untouched; n as usize]?;
    Ok(roles)
}
