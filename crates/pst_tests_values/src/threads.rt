use pst_expr::{Domain, Env, Expr};
use pst_target::{Gate, OpenGate, ScriptTarget, SureTarget};
use std::test::Fail;

fn may_cross<T: Send + Sync>() {}

#[test]
fn expressions_and_domains_cross_threads() -> Result<(), Fail> {
    may_cross::<Expr>();
    may_cross::<Domain>();
    may_cross::<Env>();
    Ok(())
}

fn is_send<T: Send + Drop>(_value: T) {}

fn is_sync<T: Sync + Drop>(_value: T) {}

#[test]
fn lanes_move_between_threads(rt: HostRuntime) -> Result<(), Fail> {
    is_send(SureTarget::new(rt.alloc(), Vec::new(rt.alloc())));
    is_send(ScriptTarget::new(rt.alloc(), Vec::new(rt.alloc()), 0));
    is_sync(OpenGate);
    OpenGate.pass(0);
    Ok(())
}
