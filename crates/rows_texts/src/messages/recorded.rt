/// curl -s 'http://127.0.0.1:8081/connections?departureTime=2024-05-01T08:00:00.000Z'
pub(super) const CURL: &str =
    "GET /connections?departureTime=2024-05-01T08:00:00.000Z HTTP/1.1\r\nHost: 127.0.0.1:8081\r\nUser-Agent: curl/7.88.1\r\nAccept: */*\r\n\r\n";
/// curl -s --http1.0 http://127.0.0.1:8081/stops
pub(super) const CURL_1_0: &str =
    "GET /stops HTTP/1.0\r\nHost: 127.0.0.1:8081\r\nUser-Agent: curl/7.88.1\r\nAccept: */*\r\n\r\n";
/// curl -s -I http://127.0.0.1:8081/stops
pub(super) const CURL_HEAD: &str =
    "HEAD /stops HTTP/1.1\r\nHost: 127.0.0.1:8081\r\nUser-Agent: curl/7.88.1\r\nAccept: */*\r\n\r\n";
/// curl -s -d abc http://127.0.0.1:8081/updates
pub(super) const CURL_POST: &str =
    "POST /updates HTTP/1.1\r\nHost: 127.0.0.1:8081\r\nUser-Agent: curl/7.88.1\r\nAccept: */*\r\nContent-Length: 3\r\nContent-Type: application/x-www-form-urlencoded\r\n\r\nabc";
/// curl -s -x http://127.0.0.1:8081 'http://lc.example/connections?a=b'
pub(super) const CURL_PROXY: &str =
    "GET http://lc.example/connections?a=b HTTP/1.1\r\nHost: lc.example\r\nUser-Agent: curl/7.88.1\r\nAccept: */*\r\nProxy-Connection: Keep-Alive\r\n\r\n";
/// wget -q -O /dev/null --tries=1 http://127.0.0.1:8081/stops
pub(super) const WGET: &str =
    "GET /stops HTTP/1.1\r\nHost: 127.0.0.1:8081\r\nUser-Agent: Wget/1.21.3\r\nAccept: */*\r\nAccept-Encoding: identity\r\nConnection: Keep-Alive\r\n\r\n";
/// wrk -t1 -c1 -d1s http://127.0.0.1:8081/stops
pub(super) const WRK: &str = "GET /stops HTTP/1.1\r\nHost: 127.0.0.1:8081\r\n\r\n";
/// nginx with `proxy_pass http://127.0.0.1:8081;`, asked by curl -s http://127.0.0.1:8082/stops
pub(super) const NGINX: &str =
    "GET /stops HTTP/1.0\r\nHost: 127.0.0.1:8081\r\nConnection: close\r\nUser-Agent: curl/7.88.1\r\nAccept: */*\r\n\r\n";
