ghost use Rattle.std.specs.Prelude.{◌≡◌, ◌%◌, ◌<◌, All, length, sum};
ghost use Rattle.pst_rng.specs.Weights.{IsWeight, IsLeastAbove, index_above};

// The least index whose summed weights exceed the word modulo the total.
pub(crate) fn weighted_index(word: u64, weights: &[u32]) -> usize
    requires some { 0 < length weights.now }
    requires each { All IsWeight weights.now }
    ensures value { result ≡ index_above (word % sum weights.now) weights.now }
    ensures least { IsLeastAbove (word % sum weights.now) weights.now result }
{
    index_above(remainder(word, total(weights)), weights)
}

// The total of the weights. A slice may be so long that it needs more than 64 bits.
fn total(weights: &[u32]) -> u128
    requires some { 0 < length weights.now }
    requires each { All IsWeight weights.now }
    ensures sum { result ≡ sum weights.now }
    ensures positive { 0 < result }
{
    let mut total = 0u128;
    for weight in weights {
        total += u128::from(*weight);
    }
    total
}

// The word modulo the total; a total above every word leaves it as it is.
fn remainder(word: u64, total: u128) -> u64
    requires { 0 < total }
    ensures { result ≡ word % total }
{
    match u64::try_from(total) {
        Ok(total) => word % total,
        Err(_) => word,
    }
}

fn index_above(number: u64, weights: &[u32]) -> usize
    requires { number < sum weights.now }
    ensures value { result ≡ index_above number weights.now }
    ensures least { IsLeastAbove number weights.now result }
{
    let mut left = number;
    for (index, weight) in weights.iter().enumerate() {
        let weight = u64::from(*weight);
        if left < weight {
            return index;
        }
        left -= weight;
    }
    unreachable!()
}
