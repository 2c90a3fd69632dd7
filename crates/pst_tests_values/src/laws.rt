use pst_domain::{
    comparisons_decide_all_pairs, narrower_bounds_give_inner_spans, spans_are_sane,
    spans_hold_values,
};
use pst_expr::{domains_list_values, values_are_in_range, worked_values};
use pst_num::{bits_act_apart, bits_determine, division_rounds_towards_zero, shifts_round_down};

#[test]
fn laws_can_be_called() {
    division_rounds_towards_zero();
    shifts_round_down();
    bits_act_apart();
    bits_determine();
    values_are_in_range();
    domains_list_values();
    worked_values();
    spans_hold_values();
    narrower_bounds_give_inner_spans();
    spans_are_sane();
    comparisons_decide_all_pairs();
}
