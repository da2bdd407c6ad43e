//! What binding keeps, in words of its own: each law is a function that does nothing.
ghost use Rattle.std.specs.Prelude.{◌≡◌, ◌<◌, ◌≤◌, ◌^◌, Ok, ℕ, ℤ, List, map, length, unsigned_abs};
ghost use Rattle.std.specs.List.{All};
ghost use Rattle.sd_num.specs.Wrapped.{wrapped};
ghost use Rattle.sd_range.specs.Affine.{affine_value, variable_value};
ghost use Rattle.sd_range.specs.Range.{range_values};
ghost use Rattle.sd_range.specs.Weight.{weight_of};
ghost use Rattle.sd_range.specs.Points.{points, ranges_of};
ghost use Rattle.sd_range.specs.Subset.{elements};
ghost use Rattle.sd_range.specs.declared.affine.Affine.{Affine};
ghost use Rattle.sd_range.specs.declared.range.Range.{Range};
ghost use Rattle.sd_range.specs.declared.subset.Subset.{Subset};
ghost use Rattle.sd_graph.specs.Context.{index_at, span_counts};
ghost use Rattle.sd_valid.specs.BoundExpression.{bound_affine, bound_param, bound_range, bound_subset};
ghost use Rattle.sd_graph.specs.TaskletMeaning.{meaning_of};
ghost use Rattle.sd_valid.specs.BoundCode.{bound_tasklet};
ghost use Rattle.sd_work.specs.Memory.{Memory};
ghost use Rattle.sd_graph.specs.PlainTree.{GraphTree, TaskletTree};
ghost use Rattle.sd_graph.specs.Unfold.{run_of};
ghost use Rattle.sd_valid.specs.BoundTree.{bound_graph};
ghost use Rattle.sd_valid.specs.SizeValues.{NamedSizes, sizes_in};
ghost use Rattle.sd_valid.specs.SizedValues.{sized, AreElements};
ghost use Rattle.sd_valid.specs.SizedWork.{sized_run};
ghost use Rattle.sd_valid.specs.Binding.{binding};

/// What is bound has, at whatever values of the variables, what it has where the size symbols
/// have their sizes: an expression its value, a range its values, the parameters of a map their
/// points, a subset its elements, its extents as a connector, and the index at each place in it.
pub fn what_is_bound_has_its_values_at_the_sizes()
    ensures value { (sizes values : List ℤ) (a : Affine)
        → affine_value values (bound_affine sizes a) ≡ affine_value (sized sizes values) a }
    ensures range { (sizes values : List ℤ) (range : Range)
        → range_values values (bound_range sizes range) ≡ range_values (sized sizes values) range }
    ensures points { (sizes values : List ℤ) (params : List (ℕ × Range))
        → points (ranges_of (map (bound_param sizes) params)) values ≡ points (ranges_of params) (sized sizes values) }
    ensures elements { (sizes values : List ℤ) (subset : Subset)
        → elements (bound_subset sizes subset) values ≡ elements subset (sized sizes values) }
    ensures extents { (sizes values : List ℤ) (subset : Subset)
        → span_counts (bound_subset sizes subset).dims values ≡ span_counts subset.dims (sized sizes values) }
    ensures index { (sizes values at : List ℤ) (subset : Subset)
        → index_at (bound_subset sizes subset).dims values at ≡ index_at subset.dims (sized sizes values) at }
{}

/// An expression whose constant is within 2^40, and whose coefficients' sizes are within 2^10
/// together, has with sizes within 2^24 a constant below 2^41, and no more coefficients.
pub fn a_bound_expression_stays_small()
    ensures constant { (sizes : List ℤ) (a : Affine) → All (λ size. unsigned_abs size ≤ 2 ^ 24) sizes
        → unsigned_abs a.constant ≤ 2 ^ 40 → weight_of a.terms ≤ 2 ^ 10
        → unsigned_abs (bound_affine sizes a).constant < 2 ^ 41 }
    ensures weight { (sizes : List ℤ) (a : Affine) → weight_of (bound_affine sizes a).terms ≤ weight_of a.terms }
{}

/// After binding no expression names a size symbol.
pub fn a_bound_expression_names_no_size_symbol()
    ensures { (sizes : List ℤ) (a : Affine) → All (λ term. length sizes ≤ term.0) (bound_affine sizes a).terms }
{}

/// Bound code means, at whatever values of the variables, what the code means where the size
/// symbols have their sizes, which are elements.
pub fn bound_code_means_what_it_means_at_the_sizes()
    ensures { (sizes values : List ℤ) (code : TaskletTree) (inputs : List (List ℤ)) (extents : List (List ℕ))
        → AreElements sizes
        → meaning_of (bound_tasklet sizes code) (record { values = inputs; extents = extents; variables = map (λ variable. wrapped (variable_value values variable)) code.variables })
        ≡ meaning_of code (record { values = inputs; extents = extents; variables = map (λ variable. wrapped (variable_value (sized sizes values) variable)) code.variables }) }
{}

/// What a graph has to do after binding is what it has to do where its size symbols have their
/// sizes, in nested graphs too: the run is the same work, move by move. So it is of each graph that
/// `bind` gives (`binding`), and of any sizes that are elements (`run`).
pub fn a_bound_graph_does_what_the_graph_does_with_its_sizes()
    ensures binding { (tree bound : GraphTree) (named : NamedSizes) (memory : Memory) → binding tree named ≡ Ok bound
        → run_of bound memory ≡ sized_run (sizes_in named tree) tree memory }
    ensures run { (tree : GraphTree) (sizes : List ℤ) (memory : Memory) → AreElements sizes
        → run_of (bound_graph sizes tree) memory ≡ sized_run sizes tree memory }
{}
