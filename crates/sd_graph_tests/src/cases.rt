//! What `validate` tells of graphs: valid ones, among them those at the ends of the limits, and graphs that
//! break each rule at a place that is known.

/// A valid graph. Container 0 is an argument of 3 elements, 1 an array of 2 times 3, 2 one of one element, 3
/// a stream, 4 the element of a consume scope, and 5 an array of each point of a map. Variable 0 is that of a
/// loop, 1 the parameter of a map in its block, and nothing sets the others.
///
/// State 1 is the begin of the loop and state 2 its block. State 3 is written last and has five items, so
/// that what is written for `...` begins with its sixth.
pub(crate) const EXAMPLE: &str = "
argument 3; transient 2 3; transient 1; stream; private 1; private 3;
state; next 1 v0=0;
state; next 2 if > /0 | +v0 v0 2 < =o0; next 3;
state; map v1=0:v0+1 5; task > 5[v1] | 7 =o0; end; back 1 v0=v0+1;
state; task > 3 | 7 =o0; consume 4 3; copy 4[0] > 2[0]; end; copy 0[0:2] > 1[1,0:2];
nested 1[1,0:2]; argument 3; state; task > 0[2] | 7 =o0; end;
reduce 1[0:1,0:2] > 0[0:2] | +v0;
...";

/// A line is `GRAPH -> VERDICT`. A graph is written whole, or as the example with a part of it in the place
/// of another, as `PART => OTHER`. In each of them `{PART}64` and a blank is a part 64 times. Lines that begin
/// with `#` say what those below them show.
pub(crate) const CASES: &str =
    "# Which of several places, and which of several rules. The first line has nothing behind the example.
... =>  -> valid
state -> valid
... => copy 3 > 2[0]; copy 3 > 2[0] -> rule 4 at [3, 5]
... => copy 3 > 2[0]; task > 9[0] -> rule 1 at [3, 6]
... => map v2=0:1; copy 3 > 2[0]; end; copy 3 > 2[0] -> rule 4 at [3, 5, 0]
... => map v2=0:1; end; map v2=0:1 -> rule 1 at [3, 6]
... => map v2=0:1; end; nested; state; end; map v2=0:1 -> rule 1 at [3, 7]
... => nested; state; task > 9[0] -> rule 1 at [3, 5, 0, 0]
... => nested; state; task > 5[0] -> rule 1 at [3, 5, 0, 0]
... => nested; transient 3; state; task > 0[v0] -> rule 1 at [3, 5, 0, 0]
... => nested; transient 3; state; map v0=0:2; task > 0[v0] -> valid
# Rule 1: what is named is in force.
... => task > 9[0] -> rule 1 at [3, 5]
... => task > 5[0] -> rule 1 at [3, 5]
... => map v2=0:1; task > 4[0] -> rule 1 at [3, 5, 0]
... => task > 0[v0] -> rule 1 at [3, 5]
... => task > 0[v1] -> rule 1 at [3, 5]
... => task > 0[v9] -> rule 1 at [3, 5]
... => task > 2[0] | +v1 v0 =o0 -> rule 1 at [3, 5]
... => map v2=0:v2+1 -> rule 1 at [3, 5]
> /0 | +v0 v0 2 < =o0 => 5[0] > /0 | i0 =o1 -> rule 1 at [1]
back 1 v0=v0+1 => back 1 v0=v1+1 -> rule 1 at [2]
back 1 v0=v0+1 => back 1 v0=v0+1 v9=v0+1 -> rule 1 at [2]
consume 4 3 => consume 4 9 -> rule 1 at [3, 1]
# Rule 1: a scope has names of its own.
... => map v0=0:1 -> rule 1 at [3, 5]
... => map v1=0:1 -> rule 1 at [3, 5]
... => map v9=0:1 -> rule 1 at [3, 5]
... => map v2=0:1 v2=0:1 -> rule 1 at [3, 5]
... => map v2=0:1 1 -> rule 1 at [3, 5]
... => map v2=0:1 5 -> rule 1 at [3, 5]
... => map v2=0:1 9 -> rule 1 at [3, 5]
... => consume 2 3 -> rule 1 at [3, 5]
... => consume 4 3 -> rule 1 at [3, 5]
... => consume 9 3 -> rule 1 at [3, 5]
consume 4 3 => consume 9 4 3 -> rule 1 at [3, 1]
v0+1 5; => v0+1 5 5; -> rule 1 at [2, 0]
5; task > 5[v1] | 7 =o0 =>  -> rule 1 at []
stream; private 1; state; consume 1 0 -> valid
stream; private 2; state; consume 1 0 -> rule 1 at [0, 0]
stream; private 1 1; state; consume 1 0 -> rule 1 at [0, 0]
stream; private-stream; state; consume 1 0 -> rule 1 at [0, 0]
state; map v0=0:1; end; next 1; state; next 1 v0=0 -> rule 1 at [1]
private 2; private 2; state; map v0=0:2 0; task > 0[0]; map v1=0:v0+1 1; copy 0[0] > 1[0] -> valid
# Rule 1: size symbols are there, and are no parameters.
symbols 9; state -> valid
symbols 10; state -> rule 1 at []
symbols 1; state; map v0=0:1 -> rule 1 at [0, 0]
symbols 1; state; map v1=0:1 -> valid
... => nested; symbols 2; state; map v2=0:1 v1=0:1 -> rule 1 at [3, 5, 0, 0]
# Rule 2: links have the dimensions of their sides.
... => task > 1[0] -> rule 2 at [3, 5]
... => task > 0[0,0] -> rule 2 at [3, 5]
... => copy 0[0:2&1] > 1[0,0:2] -> rule 2 at [3, 5]
... => task > 0[0:2] -> rule 2 at [3, 5]
... => task > 0[0]/1 -> rule 2 at [3, 5]
... => task /0 > 2[0] -> rule 2 at [3, 5]
... => task > 2[0]/ -> rule 2 at [3, 5]
> /0 | +v0 v0 2 < =o0 => 0[0:2]/1 > /0 | 1 =o1 -> rule 2 at [1]
> /0 | +v0 v0 2 < =o0 => 0[0]/ > /0 | 1 =o0 -> rule 2 at [1]
> /0 | +v0 v0 2 < =o0 => 0[0] > /0 | i0 =o1 1 =o1 -> rule 2 at [1]
> /0 | +v0 v0 2 < =o0 => 0[0] > /0 -> rule 2 at [1]
> /0 | +v0 v0 2 < =o0 => 0[0] > /0 /0 | i0 =o1 -> rule 2 at [1]
# Rule 2: code names what it has.
... => task > 2[0] | i0 =o0 -> rule 2 at [3, 5]
... => task 2[0] | 7 =o0 -> rule 2 at [3, 5]
... => task > 0[0:2]/1 | 0 7 =o0 -> valid
... => task > 2[0] | 0 7 =o0 -> rule 2 at [3, 5]
... => task > 2[0] | v0 =o0 -> rule 2 at [3, 5]
... => task > 2[0] | +l 7 =l0 l0 =o0 -> valid
... => task > 2[0] | +l l0 =o0 7 =l0 -> rule 2 at [3, 5]
... => task > 2[0] | +l 7 =l0 1 when l0 =o0 -> rule 2 at [3, 5]
... => task > 2[0] | +l 7 =l1 -> rule 2 at [3, 5]
# Rule 3: transitions lead up or close a loop.
next 3 => next 4 -> rule 3 at [1]
next 3 => next 0 -> rule 3 at [1]
next 3 => next 1 -> rule 3 at [1]
next 3 => back 3 -> rule 3 at [1]
next 3 => next 2 -> rule 3 at [2]
next 1 v0=0 => next 2 -> rule 3 at [2]
# Rule 3: a variable is that of one loop.
next 3 => next 3 v2=0 -> rule 3 at [1]
next 3 => next 3; next 3 -> rule 3 at [0]
next 3 => next 3 if > /0 | +v0 v0 2 < =o0 -> rule 3 at [0]
back 1 v0=v0+1 => back 1 v0=v0+3 -> valid
back 1 v0=v0+1 => back 1 v0=v0 -> rule 3 at [2]
back 1 v0=v0+1 => back 1 v0=v0+-1 -> rule 3 at [2]
back 1 v0=v0+1 => back 1 v0=1 -> rule 3 at [2]
if > /0 | +v0 v0 2 < =o0 =>  -> rule 3 at [0]
v0 2 < => v0 2 <= -> rule 3 at [0]
v0 2 < => 2 v0 < -> rule 3 at [0]
v0 2 < => v0 v0 v0 * < -> rule 3 at [0]
v0 2 < => v0 2 ~ < -> rule 3 at [0]
> /0 | +v0 v0 2 < =o0 => 0[0] > /0 | +v0 v0 i0 < =o1 -> rule 3 at [0]
argument 1; state; next 1 if 0[0] > /0 | i0 =o1; next 2; state; back 0; state -> valid
state; next 1 v0=0; state; next 2 if > /0 | +v0 v0 2 < =o0; next 6; state; next 3 v1=v0; state; next 4 if > /0 | +v1 v0 2 < =o0; \
    next 5; state; back 3 v1=v1+2; state; back 1 v0=v0+1; state -> valid
state; next 1 v0=0; state; next 2 if > /0 | +v0 v0 2 < =o0; next 3; state; back 1 v0=v0+1; state; next 4 v1=0; state; \
    next 5 if > /0 | +v1 v0 2 < =o0; next 6; state; back 4 v1=v1+1; state -> valid
state; next 1 v0=0; state; next 2 if > /0 | +v0 v0 2 < =o0; next 3; state; back 1 v0=v0+1; state; next 4 v0=0; state; \
    next 5 if > /0 | +v0 v0 2 < =o0; next 6; state; back 4 v0=v0+1; state -> rule 3 at [3]
# Rule 4: streams are pushed into or consumed.
... => copy 3 > 2[0] -> rule 4 at [3, 5]
... => copy 2[0] > 3 -> rule 4 at [3, 5]
... => reduce 3 > 2[0] -> rule 4 at [3, 5]
... => reduce 1[1,0:2] > 3 -> rule 4 at [3, 5]
... => task 3 > 2[0] | i0 =o1 -> rule 4 at [3, 5]
... => nested 3; argument; state -> rule 4 at [3, 5]
consume 4 3 => consume 4 0 -> rule 4 at [3, 1]
stream; state; next 1 if 0 > /0 | i0 =o1; state -> rule 4 at [0]
# Rule 5: nested graphs have links for their arguments.
argument 3; transient 3; state -> valid
transient 3; argument 3; state -> rule 5 at []
argument 3; transient 3; arguments 2; state -> rule 5 at []
argument 3; argument 3; arguments 1; state -> rule 5 at []
argument 3; argument 3; arguments 3; state -> rule 5 at []
... => nested; argument 3; state -> rule 5 at [3, 5]
... => nested 0[0:2]; argument 3; state -> valid
... => nested 0[0:2] 1[1,0:2]; argument 3; state -> rule 5 at [3, 5]
... => nested 0[0:1]; argument 3; state -> rule 5 at [3, 5]
... => nested 0[1:3]; argument 3; state -> valid
... => nested 0[0:2:2]; argument 3; state -> rule 5 at [3, 5]
... => nested 1[0:1,0:2]; argument 3; state -> rule 5 at [3, 5]
... => nested 0[0:2]; argument 3; state; nested 0[0:1]; argument 3; state -> rule 5 at [3, 5, 0, 0]
... => nested 0[0:2] 2[0] 0[0:2]; argument 3; argument 1; argument 3; state; task > 1[0] -> valid
... => nested 0[0:2] 0[0:2]; argument 3; argument 3; state; task > 0[0] -> rule 5 at [3, 5]
... => nested 0[0:2] 0[0:2]; argument 3; argument 3; state; task > 1[0] -> rule 5 at [3, 5]
... => nested 0[0:2] 0[0:2]; argument 3; argument 3; state; copy 0[0:2] > 1[0:2] -> rule 5 at [3, 5]
... => nested 0[0:2] 0[0:2]; argument 3; argument 3; state; nested 1[0:2]; argument 3; state; task > 0[2] -> rule 5 at [3, 5]
# Rule 6: copies and reductions have sides of one shape.
... => copy 1[0,0:2] > 1[1,0:2] -> rule 6 at [3, 5]
... => copy 0[0:1] > 1[0,1:2] -> valid
... => copy 0[0:2] > 1[0,0:1] -> rule 6 at [3, 5]
... => copy 0[0:2:2] > 1[0,0:2:2] -> valid
... => copy 0[0:2:2] > 1[0,0:2] -> rule 6 at [3, 5]
... => copy 0[0:2] > 1[0:1,0:2] -> rule 6 at [3, 5]
... => copy 0[0] > 1[1,0:2] -> rule 6 at [3, 5]
... => reduce 1[0:1,0:2] > 1[1,0:2] | +v0 -> rule 6 at [3, 5]
... => reduce 1[0:1,0:2] > 0[0:2] | +v0 -> valid
... => reduce 1[0:1,0:2] > 0[0:1] | +v1 -> valid
... => reduce 1[0:1,0:2] > 0[0:2] | +v2 -> rule 6 at [3, 5]
... => reduce 1[0:1,0:2] > 0[0:2] | +v1 -> rule 6 at [3, 5]
... => reduce 1[1,0:2] > 2[0] -> valid
... => reduce 1[0:1,0:2] > 0[1:1] -> valid
... => reduce 1[0:1,0:2] > 0[0:1] -> rule 6 at [3, 5]
... => reduce 1[0:1,0:2:2] > 0[0:2:2] | +v0 -> rule 6 at [3, 5]
... => reduce 1[0:1,0:2] > 0[0:2:2] | +v0 -> rule 6 at [3, 5]
# Rule 7: parts are at most so many.
{state; }0 -> rule 7 at []
{state; }1 -> valid
{state; }256 -> valid
{state; }257 -> rule 7 at []
{state; nested; }8 state -> valid
{state; nested; }9 state -> rule 7 at [0, 0, 0, 0, 0, 0, 0, 0, 0, 0, 0, 0, 0, 0, 0, 0, 0, 0]
state; {transient 1; }256 -> valid
state; {transient 1; }257 -> rule 7 at []
argument 1; state; task > 0[0]; {task; }1022 -> valid
argument 1; state; task > 0[0]; {task; }1023 -> rule 7 at [0]
argument 1; state; task{ 0[0]}64 -> valid
argument 1; state; task{ 0[0]}65 -> rule 7 at [0, 0]
argument 1; state; task > 0[0] |{ 7 =o0}1023  1 when -> valid
argument 1; state; task > 0[0] |{ 7 =o0}1024  1 when -> rule 7 at [0, 0]
argument 1; state; task > 0[0] | 7{ ~}64  =o0 -> valid
argument 1; state; task > 0[0] | 7{ ~}65  =o0 -> rule 7 at [0, 0]
# Rule 7: arrays have at most so many elements.
state; transient -> rule 7 at []
state; transient{ 2}4 -> valid
state; transient{ 2}5 -> rule 7 at []
state; stream -> valid
state; stream 1 -> rule 7 at []
state; transient -1 -> rule 7 at []
state; transient 0 -> valid
state; transient 16777216 -> valid
state; transient 16777217 -> rule 7 at []
state; transient 2199023255552 -> rule 7 at []
state; transient 0 1099511627776 -> valid
state; {transient 16777216; }4 -> valid
state; {transient 16777216; }5 -> rule 7 at []
transient 16777216; state; nested; state; {transient 16777216; }3 -> valid
transient 16777216; state; nested; state; {transient 16777216; }4 -> rule 7 at [0, 0]
# Rule 7: ranges have numbers that are small.
... => map v2=0:1:-1 -> rule 7 at [3, 5]
... => map v2=0:1:0 -> rule 7 at [3, 5]
... => map v2=0:1:1099511627775 -> valid
... => map v2=0:1:1099511627776 -> rule 7 at [3, 5]
... => map v2=0: -> rule 7 at [3, 5]
... => map v2=0:0{&1}3 -> valid
... => map v2=0:0{&1}4 -> rule 7 at [3, 5]
... => task > 0[2199023255551] -> valid
... => task > 0[-2199023255551] -> valid
... => task > 0[2199023255552] -> rule 7 at [3, 5]
... => task > 0[-2199023255552] -> rule 7 at [3, 5]
... => map v2=0:1; map v3=0:1024v2 -> valid
... => map v2=0:1; map v3=0:-1024v2 -> valid
... => map v2=0:1; map v3=0:1025v2 -> rule 7 at [3, 5, 0]
... => map v2=0:1; map v3=0:-1025v2 -> rule 7 at [3, 5, 0]
v0 2 < => v0 2199023255551 < -> valid
v0 2 < => v0 2199023255552 < -> rule 7 at [1]
v0 2 < => v0 -2199023255552 < -> rule 7 at [1]
v0 2 < => v0 v0 < -> rule 7 at [1]
# Rule 7: scopes are at most so deep.
state; map v0=0:1; map v1=0:v0; map v2=0:v1; map v3=0:v2; map v4=0:v3; map v5=0:v4; map v6=0:v5; task -> valid
state; map v0=0:1; map v1=0:v0; map v2=0:v1; map v3=0:v2; map v4=0:v3; map v5=0:v4; map v6=0:v5; map v7=0:1 -> valid
state; map v0=0:1; map v1=0:v0; map v2=0:v1; map v3=0:v2; map v4=0:v3; map v5=0:v4; map v6=0:v5; \
    map v7=0:v6 -> rule 7 at [0, 0, 0, 0, 0, 0, 0, 0, 0]
state; map v0=0:1; map v1=0:v0; map v2=0:v1; map v3=0:v2; map v4=0:v3; map v5=0:v4; map v6=0:v5; map v7=0:1; \
    task -> rule 7 at [0, 0, 0, 0, 0, 0, 0, 0, 0, 0]
state; next 1 v0=0; state; next 2 if > /0 | +v0 v0 2 < =o0; next 3; state; back 1 v0=v0+1; map v1=0:1; map v2=0:1; map v3=0:1; \
    map v4=0:1; map v5=0:1; map v6=0:1; task; {end; }6 state -> valid
state; next 1 v0=0; state; next 2 if > /0 | +v0 v0 2 < =o0; next 3; state; back 1 v0=v0+1; map v1=0:1; map v2=0:1; map v3=0:1; \
    map v4=0:1; map v5=0:1; map v6=0:1; map v7=0:1; task; {end; }7 state -> rule 7 at [2, 0, 0, 0, 0, 0, 0, 0, 0]
state; map -> rule 7 at [0, 0]
state; map v0=0:1 v1=0:1 v2=0:1 v3=0:1 v4=0:1 v5=0:1 v6=0:1 v7=0:1 -> valid
state; map v0=0:1 v1=0:1 v2=0:1 v3=0:1 v4=0:1 v5=0:1 v6=0:1 v7=0:1 v8=0:1 -> rule 7 at [0, 0]
# Rule 8: no size symbol is left.
argument 3; argument 3; symbols 1; state; copy 0[0] > 1[0] -> valid
argument 3; argument v0; symbols 1; state; copy 0[0] > 1[0] -> rule 8 at []
argument 3; symbols 1; state; task > 0[v0+-1] -> rule 8 at [0, 0]
symbols 1; state; map v1=0:v0+-1 -> rule 8 at [0, 0]
argument 3; symbols 1; state; task > 0[0] | +v0 v0 =o0 -> rule 8 at [0, 0]
argument 3; symbols 1; state; task > 0[0] | +v0 1 =o0 -> valid
symbols 1; state; next 1 if > /0 | +v0 v0 1 < =o0; state -> rule 8 at [0]
symbols 1; state; next 1 v1=0; state; next 2 if > /0 | +v1 v0 1 < =o0; next 3; state; back 1 v1=v1+1; state -> valid
symbols 1; state; next 1 v1=v0; state; next 2 if > /0 | +v1 v0 1 < =o0; next 3; state; back 1 v1=v1+1; state -> rule 8 at [0]";
