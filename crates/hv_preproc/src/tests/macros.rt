//! Macros under conditions.
use super::*;

#[test]
fn macros_are_expanded(rt: HostRuntime) -> Result<(), Fail> {
    let source = "\
#define x 3
#define f(a) f(x * (a))
#undef x
#define x 2
#define g f
#define z z[0]
#define t(a) a
f(y+1) + f(f(z)) % t(t(g)(0) + t)(1);
";
    let tokens = "f ( 2 * ( y + 1 ) ) + f ( 2 * ( f ( 2 * ( z [ 0 ] ) ) ) ) % f ( 2 * ( 0 ) ) \
+ t ( 1 ) ;";
    assert_left(
        &rt,
        rt.alloc(),
        NO_OPTION,
        &[("main.c", source)],
        &[("", tokens)],
    )
}

#[test]
fn a_macro_is_defined_in_two_ways(rt: HostRuntime) -> Result<(), Fail> {
    let source = "\
int putchar(int);
#ifdef A
#define TWICE(x) ((x) + (x))
#else
#define TWICE(x) ((x) * 2 + 1)
#endif
#define SHOW(v) putchar(v)
int main(void) { SHOW(TWICE(33)); return 0; }
";
    let with = "int putchar ( int ) ; int main ( void ) { putchar ( ( ( 33 ) + ( 33 ) ) ) ; \
return 0 ; }";
    let without = "int putchar ( int ) ; int main ( void ) { putchar ( ( ( 33 ) * 2 + 1 ) ) ; \
return 0 ; }";
    assert_left(
        &rt,
        rt.alloc(),
        ONE_OPTION,
        &[("main.c", source)],
        &[("A", with), ("", without)],
    )
}
