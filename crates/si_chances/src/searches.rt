//! How many numbers of a list in order are below one, and whether one is among them.

ghost use Rattle.std.specs.Prelude.{◌≡◌, nat_lt, nat_le, nat_eq, count_by, IsSorted};
ghost use Rattle.std.specs.List.{list_any};
ghost use Rattle.std.specs.Ordering.{nat_cmp};

/// How many are less than n.
pub fn how_many_below(sorted: &[u64], n: u64) -> usize
    requires { IsSorted nat_cmp sorted.now }
    ensures { result ≡ count_by (λ m. nat_lt m n) sorted.now }
{
    sorted.partition_point(|m| *m < n)
}

/// How many are n at most.
pub fn how_many_up_to(sorted: &[u64], n: u64) -> usize
    requires { IsSorted nat_cmp sorted.now }
    ensures { result ≡ count_by (λ m. nat_le m n) sorted.now }
{
    sorted.partition_point(|m| *m <= n)
}

/// Whether n is among them.
pub fn is_among(sorted: &[u64], n: u64) -> bool
    requires { IsSorted nat_cmp sorted.now }
    ensures { result ≡ list_any (λ m. nat_eq m n) sorted.now }
{
    sorted.binary_search(&n).is_ok()
}
