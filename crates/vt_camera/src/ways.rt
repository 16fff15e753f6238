//! The cameras on the way from one key of a path to the next.

ghost use Rattle.std.specs.Prelude.{◌≡◌, ◌≤◌, ◌++◌, ℤ, pos, negsuc, neg_ℤ, ◌*ℤ◌, IfOk};
ghost use Rattle.vt_text.specs.Limits.{most_pictures};
ghost use Rattle.vt_text.specs.Numbers.{IsWithin};
ghost use Rattle.vt_camera.specs.Paths.{IsCamera, most_place};
ghost use Rattle.vt_camera.specs.Rows.{floor_div};
ghost use Rattle.vt_camera.specs.Ways.{place_between, camera_on_way, way};

use crate::paths::Camera;
use std::alloc::AllocError;

// How much of a distance lies behind after step i of n, rounded down.
fn gone(distance: i64, i: u32, n: u32) -> i64
    requires limits { IsWithin (negsuc 4294967295) (pos 4294967296) distance }
    requires some { 1 ≤ n }
    requires within { i ≤ n }
    requires few { n ≤ most_pictures }
    ensures { result ≡ floor_div (distance *ℤ pos i) n }
{
    (distance * i64::from(i)).div_euclid(i64::from(n))
}

// The number after step i of n on the way from a to b, rounded down. It keeps within all bounds that both a and b keep.
fn between(a: i64, b: i64, i: u32, n: u32) -> i64
    requires a_limits { IsWithin (neg_ℤ (pos most_place)) (pos most_place) a }
    requires b_limits { IsWithin (neg_ℤ (pos most_place)) (pos most_place) b }
    requires some { 1 ≤ n }
    requires within { i ≤ n }
    requires few { n ≤ most_pictures }
    ensures value { result ≡ place_between a b i n }
    ensures limits { (low high : ℤ) → IsWithin low high a → IsWithin low high b → IsWithin low high result }
{
    a + gone(b - a, i, n)
}

// The camera after step i of n on the way from one to another.
fn camera_between(from: &Camera, to: &Camera, i: u32, n: u32) -> Camera
    requires from_limits { IsCamera from.now }
    requires to_limits { IsCamera to.now }
    requires some { 1 ≤ n }
    requires within { i ≤ n }
    requires few { n ≤ most_pictures }
    ensures value { result ≡ camera_on_way from.now to.now n i }
    ensures limits { IsCamera result }
{
    Camera {
        u: between(from.u, to.u, i, n),
        v: between(from.v, to.v, i, n),
        h: between(from.h, to.h, i, n),
        c: between(from.c, to.c, i, n),
        s: between(from.s, to.s, i, n),
    }
}

/// Adds the cameras of n steps from one to another.
pub(crate) fn add_way(
    cameras: &mut Vec<Camera>,
    from: &Camera,
    to: &Camera,
    n: u32,
) -> Result<(), AllocError>
    requires from_limits { IsCamera from.now }
    requires to_limits { IsCamera to.now }
    requires few { n ≤ most_pictures }
    ensures { IfOk result (λ _. cameras.new.items ≡ cameras.old.items ++ way from.now to.now n) }
{
    for done in 0..n {
        cameras.push(camera_between(from, to, done + 1, n))?;
    }
    Ok(())
}
