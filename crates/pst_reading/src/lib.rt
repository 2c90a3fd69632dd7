//! Reading a rule of tokens: what the parsers share.
#![tactic(auto)]

mod steps;

pub use steps::{
    boxed, expect, expect_name, is, is_name, is_number, is_over, kind_number, name_then, push,
    token_at,
};
