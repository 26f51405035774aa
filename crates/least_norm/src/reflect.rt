// Householder reflectors.
ghost use Rattle.std.specs.Prelude.{◌≡◌, ℕ, ◌≤◌, ◌<◌, length};
ghost use Rattle.floats.specs.Ops.{at, ◌⊕◌, ◌⊗◌};
ghost use Rattle.floats.specs.Sqrt.{sqrt};
ghost use Rattle.least_norm.specs.Reflector as reflector;

use crate::vector;

// H = I - 2 v vᵀ / vᵀv, where v has its entry `first` and those from `rest` on: what else stands in the list counts as
// zero.
#[derive(Clone, Copy)]
pub struct Reflector<'a> {
    pub v: &'a [f64],
    pub first: usize,
    pub rest: usize,
    pub vtv: f64,
    pub ghost inside: { (first < length v.now) × (rest ≤ length v.now) },
}

impl<'a> Reflector<'a> {
    // H applied to z.
    pub fn reflect(&self, z: &mut [f64])
        requires { length z.old ≡ length self.now.v.now }
        ensures { z.new
            ≡ reflector.reflect self.now.first (λ (t : ℕ). t) (at self.now.v.now self.now.first)
            (λ (t : ℕ). at self.now.v.now t) self.now.vtv self.now.rest (length z.old) z.old }
    {
        let v0 = self.v[self.first];
        let f = 2.0 * vector::dot(v0 * z[self.first], self.v, z, self.rest, z.len()) / self.vtv;
        z[self.first] = z[self.first] - f * v0;
        vector::less_scaled(z, f, self.v, self.rest);
    }
}

// The root of alpha² + sigma, which may be guessed to be near. Where sigma is 0, as in a square system's last step, it
// is alpha's magnitude, unless the square leaves the range in which that is so.
fn norm(alpha: f64, sigma: f64, near: Option<f64>) -> f64
    ensures { result ≡ sqrt (alpha ⊗ alpha ⊕ sigma) }
{
    if sigma == 0.0 {
        let size = floats::abs(alpha);
        if size > 1e-140 && size < 1e140 {
            return size;
        }
        return floats::sqrt_near(alpha * alpha + sigma, Some(size));
    }
    floats::sqrt_near(alpha * alpha + sigma, near)
}

// The same with the sign that alpha does not have.
#[tactic(auto, unfolding(crate::specs::Reflector::beta))]
pub fn beta(alpha: f64, sigma: f64, near: Option<f64>) -> f64
    ensures { result ≡ reflector.beta alpha sigma }
{
    let root = norm(alpha, sigma, near);
    if alpha >= 0.0 { -root } else { root }
}
