//! The sources of the tests.

/// Each begins with its name and what it does or what is wrong with it.
const SOURCES: &str = "=== INC adds 1 to each element
import dace
N = dace.symbol('N')

@dace.program
def inc(A: dace.int64[N], B: dace.int64[N]):
    for i in dace.map[0:N]:
        B[i] = A[i] + 1
=== HALVES the second half of an array into the first
import dace
N = dace.symbol('N')
@dace.program
def sh(A: dace.int64[N]):
    for i in dace.map[0:4]:
        A[i] = A[i+4]
=== SQUARE a subscript that is not affine
import dace
N = dace.symbol('N')

@dace.program
def inc(A: dace.int64[N], B: dace.int64[N]):
    for i in dace.map[0:N]:
        B[i] = A[i*i] + 1
=== GRID a map in a map
import dace
@dace.program
def grid(A: dace.int64[2, 2], B: dace.int64[2, 2]):
    for i in dace.map[0:2]:
        for j in dace.map[0:2]:
            B[i, j] = A[i, j]
=== LONG adds 1, by long names
import dace
Number_of_elements = dace.symbol('Number_of_elements')
@dace.program
def successors_of_all(numbers_given: dace.int64[Number_of_elements], results_found: dace.int64[Number_of_elements]):
    for current_index in dace.map[0:Number_of_elements]:
        results_found[current_index] = numbers_given[current_index] + 1
=== SHIFTED each element is read by the point before
import dace
N = dace.symbol('N')
@dace.program
def sh(A: dace.int64[N]):
    for i in dace.map[0:N-1]:
        A[i] = A[i+1]
";

/// The source of this name; nothing where there is none.
pub(crate) fn source(name: &str) -> &'static str {
    for one in SOURCES.split("=== ") {
        let (head, text) = one.split_once('\n').unwrap_or((one, ""));
        if head.split(' ').next() == Some(name) {
            return text;
        }
    }
    ""
}
