//! The sources and their samples.

/// A program, and the samples that it takes.
#[derive(Clone, Copy)]
pub struct Worked {
    pub source: &'static str,
    pub samples: &'static [i32],
}

/// A fresh input; no sample left; division and remainder; the least number; a divisor of zero;
/// truth values; a short answer depends on the left side alone; elements; an index of the length;
/// an index below zero; the right side comes before the index; references; inputs inside
/// expressions; uses of a while; a while that ends by its bound; a while that traps; turns of a
/// for; sets by the execution of their block; uses across calls and a return; a fresh array; a
/// branch by an else if; samples that nothing takes; no sample left in a call.
pub fn cases() -> [Worked; 23] {
    [
        Worked {
            source: "sensor t; port r; fn main() { let x = sense(t); Fresh(x); emit(r, x); }",
            samples: &[21],
        },
        Worked {
            source: "sensor t; port r; fn main() { let x = sense(t); Fresh(x); emit(r, x); }",
            samples: &[],
        },
        Worked {
            source: "sensor t; port r; fn main() { let x = sense(t); let y = sense(t); emit(r, x / y); emit(r, x % y); emit(r, -x); emit(r, x * x); emit(r, x - y); }",
            samples: &[-7, 2],
        },
        Worked {
            source: "sensor t; port r; fn main() { let x = sense(t); emit(r, x / -1); emit(r, x % -1); emit(r, -x); emit(r, x - 1); }",
            samples: &[-2147483648],
        },
        Worked {
            source: "sensor t; port r; nv n: i32 = 7; fn main() { let x = sense(t); n = 8; emit(r, 1 / x); n = 9; }",
            samples: &[0],
        },
        Worked {
            source: "sensor t; port r; fn main() { let x = sense(t); let y = sense(t); let b = x > 0 && y > 0; let c = x > 0 || y > 0; let d = !b; if b { emit(r, 1); } else { emit(r, 0); } if c { emit(r, 3); } if d { emit(r, 5); } let e = b == c; if e { emit(r, 7); } }",
            samples: &[0, 4],
        },
        Worked {
            source: "sensor t; sensor u; port r; fn one(b: bool) -> i32 { let mut n = 0; if b { n = 1; } return n; } fn main() { let x = sense(t); let y = sense(u); let mut a = [0; 2]; let b = x > 0 && y > 0; let c = x < 0 || y > 0; a[0] = 1; if b { a[1] = x; } emit(r, a[0] + a[1]); let d = x == y; let f = d || x != y; if f { emit(r, y); } }",
            samples: &[0, 4],
        },
        Worked {
            source: "sensor t; port r; nv ring: [i32; 3] = -1; fn main() { let x = sense(t); let y = sense(t); let mut a = [5; 3]; a[x] = y; emit(r, a[0]); a[1] = 2; emit(r, a[1]); emit(r, a[y]); ring[x] = a[x] + 1; emit(r, ring[2]); let mut b = a[1]; b = 3; emit(r, b); }",
            samples: &[2, 0],
        },
        Worked {
            source: "sensor t; port r; nv n: [i32; 2] = 4; fn main() { let x = sense(t); n[x - 1] = 6; emit(r, n[x]); }",
            samples: &[2],
        },
        Worked {
            source: "sensor t; port r; nv n: [i32; 2] = 4; fn main() { let x = sense(t); n[x] = sense(t); }",
            samples: &[-1, 3],
        },
        Worked {
            source: "sensor t; port r; nv n: [i32; 2] = 0; fn set(k: &mut i32) -> i32 { *k = 1; return 5; } fn main() { let mut i = 0; n[i] = set(&mut i); emit(r, n[0]); emit(r, n[1]); }",
            samples: &[],
        },
        Worked {
            source: "sensor t; port r; nv n: i32 = 3; fn read(v: &mut i32) { *v = sense(t); } fn twice(v: &i32) -> i32 { return *v + *v; } fn both(v: &mut i32) { read(v); *v = *v + twice(v); } fn fill(a: &mut [i32; 2], k: i32) { a[k] = sense(t); a[0] = a[0] + a[1]; } fn main() { let mut x = 0; both(&mut x); emit(r, x); both(&mut n); emit(r, n); let mut a = [1; 2]; fill(&mut a, 1); emit(r, a[0]); let k = twice(&x); emit(r, k); }",
            samples: &[4, 5, 6],
        },
        Worked {
            source: "sensor t; sensor u; port r; fn next(k: i32) -> i32 { return k + sense(u); } fn main() { let x = sense(t) + next(sense(t)) * 2; emit(r, x + sense(u)); emit(r, next(x)); }",
            samples: &[1, 2, 3, 4, 5],
        },
        Worked {
            source: "sensor t; port r; fn main() { let mut x = sense(t); Fresh(x); while x < 3 bound 4 { emit(r, x); x = sense(t); } emit(r, x + 1); }",
            samples: &[0, 1, 5],
        },
        Worked {
            source: "sensor t; port r; fn main() { let mut x = sense(t); Fresh(x); while x < 9 bound 2 { x = sense(t); } let mut y = 0; while y < 9 bound 3 { y = y + x; } emit(r, y); }",
            samples: &[0, 1, 2],
        },
        Worked {
            source: "sensor t; port r; fn main() { let mut x = sense(t); Fresh(x); while 6 / x > 1 bound 4 { x = x - 1; } }",
            samples: &[2],
        },
        Worked {
            source: "sensor t; port r; fn main() { let mut s = 0; for i in 0..3 { s = s + i * sense(t); for j in 0..2 { emit(r, j); } } emit(r, s); for k in 2..2 { emit(r, 9); } for m in -2..0 { emit(r, m); } }",
            samples: &[1, 1, 1],
        },
        Worked {
            source: "sensor t; sensor u; port r; fn pair() { let a = sense(t); let b = sense(u); Consistent(a, 1); if b > 0 { let c = b + 1; Consistent(c, 1); } Consistent(b, 2); } fn main() { for i in 0..2 { let a = sense(t); Consistent(a, 1); for j in 0..2 { let d = a + sense(u); Consistent(d, 2); let e = d + sense(t); Consistent(e, 2); } } pair(); pair(); }",
            samples: &[1, 2, 3, 4, 5, 6, 7, 8, 9, 10, 11, 0, 13, 14],
        },
        Worked {
            source: "sensor t; port r; fn small(k: i32) -> bool { let m = k % 10; Fresh(m); return m < 5; } fn main() { let x = sense(t); Fresh(x); let y = small(x); if y { emit(r, x); } else { emit(r, -x); } let z = small(x + 3); if z { emit(r, 1); } }",
            samples: &[23],
        },
        Worked {
            source: "sensor t; port r; fn sum(a: &[i32; 2]) -> i32 { return a[0] + a[1]; } fn main() { let mut a = [0; 2]; Fresh(a); a[0] = sense(t); a[a[0]] = sense(t); let s = sum(&a); emit(r, s); let b = 1; Fresh(b); emit(r, b); }",
            samples: &[1, 6],
        },
        Worked {
            source: "sensor t; port r; fn main() { let x = sense(t); if x > 5 { emit(r, 1); } else if x + sense(t) > 5 { emit(r, 2); } else { emit(r, 3); } }",
            samples: &[3, 4],
        },
        Worked {
            source: "sensor t; port r; nv n: i32 = 1; fn main() { sense(t); n = sense(t); let b = n > 1; if b { n = n + n; } }",
            samples: &[1, 2, 3],
        },
        Worked {
            source: "sensor t; port r; nv n: i32 = 1; fn get(v: &mut i32) { *v = 7; sense(t); *v = sense(t); } fn main() { get(&mut n); emit(r, n); }",
            samples: &[1],
        },
    ]
}
